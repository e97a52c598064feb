//! Texts in quotes, with each quote in them doubled.
ghost use Rattle.std.specs.Prelude.{◌≡◌, ◌<◌, ◌==◌, ◌∷◌, ◌++◌, IfSome, MatchOption, length, position};
ghost use Rattle.tql_spec.specs.Text.{doubled, quoted};
ghost use Rattle.tql_result.specs.Devices.{Pushes, held};

use crate::device::DeviceFault;
use crate::pieces::push_all;
use crate::sink::Sink;

/// Returns the index of the first `quote`, if any.
fn first_place(quote: u8, text: &[u8]) -> Option<usize>
    ensures place { result ≡ position (λ b. b == quote) text.now }
    ensures within { IfSome result (λ i. i < length text.now) }
{
    text.iter().position(|b| *b == quote)
}

/// Returns the parts before and after the first quote, if any.
fn parts_at_quote(quote: u8, text: &[u8]) -> Option<(&[u8], &[u8])>
    ensures parts { MatchOption result (doubled quote text.now ≡ text.now)
        (λ p. doubled quote text.now ≡ p.0.now ++ (quote ∷ quote ∷ doubled quote p.1.now)) }
    ensures shorter { IfSome result (λ p. length p.1.now < length text.now) }
{
    let place = first_place(quote, text)?;
    let (front, back) = text.split_at(place);
    Some((front, &back[1..]))
}

/// Pushes a text with each quote doubled.
fn push_doubled<S: Sink>(sink: &mut S, quote: u8, text: &[u8]) -> Result<(), DeviceFault>
    ensures { Pushes (doubled quote text.now) result
        (held S.written S.kept sink.old) (held S.written S.kept sink.new) (S.failures sink.old) (S.failures sink.new) }
{
    let mut rest = text;
    while let Some((front, back)) = parts_at_quote(quote, rest) {
        push_all(sink, front)?;
        push_all(sink, &[quote, quote])?;
        rest = back;
    }
    push_all(sink, rest)
}

/// Pushes a text in quotes, with each quote in it doubled.
pub fn push_quoted<S: Sink>(sink: &mut S, quote: u8, text: &[u8]) -> Result<(), DeviceFault>
    ensures { Pushes (quoted quote text.now) result
        (held S.written S.kept sink.old) (held S.written S.kept sink.new) (S.failures sink.old) (S.failures sink.new) }
{
    push_all(sink, &[quote])?;
    push_doubled(sink, quote, text)?;
    push_all(sink, &[quote])
}
