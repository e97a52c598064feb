//! The digits of numbers, dates and times of day.
ghost use Rattle.std.specs.Prelude.{◌≡◌, ◌+◌, ◌%◌, ◌<◌, ◌∷◌, ◌++◌};
ghost use Rattle.std.specs.Fmt.{decimal, signed_decimal};
ghost use Rattle.tql_spec.specs.Text.{padded, date_text};
ghost use Rattle.tql_result.specs.Devices.{Pushes, held};

use crate::device::DeviceFault;
use crate::pieces::push_all;
use crate::sink::Sink;
use itoa::Buffer;

/// Returns the last digit of a number.
fn digit(n: u32) -> u8
    ensures { result ≡ 48 + n % 10 }
{
    b'0' + (n % 10) as u8
}

/// Returns a date as printed: a year of four digits, and a month and a day of two digits each.
#[tactic(auto, using(crate::proofs::Digits::padded_four, crate::proofs::Digits::padded_two))]
pub fn date_bytes(year: u16, month: u8, day: u8) -> [u8; 10]
    requires years { year < 10000 }
    requires months { month < 100 }
    requires days { day < 100 }
    ensures { result ≡ date_text (year, month, day) }
{
    let year = u32::from(year);
    let month = u32::from(month);
    let day = u32::from(day);
    [
        digit(year / 1000),
        digit(year / 100),
        digit(year / 10),
        digit(year),
        b'-',
        digit(month / 10),
        digit(month),
        b'-',
        digit(day / 10),
        digit(day),
    ]
}

/// Returns the byte `front` and the time of day without its fraction, each number with two digits.
#[tactic(auto, using(crate::proofs::Digits::padded_two))]
pub fn clock_bytes(front: u8, hour: u8, minute: u8, second: u8) -> [u8; 9]
    requires hours { hour < 100 }
    requires minutes { minute < 100 }
    requires seconds { second < 100 }
    ensures { result ≡ front ∷ padded 2 hour ++ 58 ∷ padded 2 minute ++ 58 ∷ padded 2 second }
{
    let hour = u32::from(hour);
    let minute = u32::from(minute);
    let second = u32::from(second);
    [
        front,
        digit(hour / 10),
        digit(hour),
        b':',
        digit(minute / 10),
        digit(minute),
        b':',
        digit(second / 10),
        digit(second),
    ]
}

/// Returns a point and the microseconds of a second, as six digits.
#[tactic(auto, using(crate::proofs::Digits::padded_six))]
pub fn fraction_bytes(micros: u32) -> [u8; 7]
    requires { micros < 1000000 }
    ensures { result ≡ 46 ∷ padded 6 micros }
{
    [
        b'.',
        digit(micros / 100_000),
        digit(micros / 10_000),
        digit(micros / 1000),
        digit(micros / 100),
        digit(micros / 10),
        digit(micros),
    ]
}

/// Pushes a number in decimal digits.
pub fn push_decimal<S: Sink>(sink: &mut S, n: u64) -> Result<(), DeviceFault>
    ensures { Pushes (decimal n) result
        (held S.written S.kept sink.old) (held S.written S.kept sink.new) (S.failures sink.old) (S.failures sink.new) }
{
    let mut buffer = Buffer::new();
    push_all(sink, buffer.format(n).as_bytes())
}

/// Pushes an integer in decimal digits, with `-` before a negative one.
pub fn push_int<S: Sink>(sink: &mut S, n: i64) -> Result<(), DeviceFault>
    ensures { Pushes (signed_decimal n) result
        (held S.written S.kept sink.old) (held S.written S.kept sink.new) (S.failures sink.old) (S.failures sink.new) }
{
    let mut buffer = Buffer::new();
    push_all(sink, buffer.format(n).as_bytes())
}
