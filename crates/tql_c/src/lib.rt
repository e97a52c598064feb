//! The engine for C: four exports, which tql.c wraps.
#![tactic(auto)]

ghost use types.Logic.{sem};
ghost use base.Fraction.{full_share};
ghost use denote.RawPtr.{lies_at, room_at};
ghost use Rattle.tql_host.specs.Serving.{fresh};
ghost use Rattle.tql_c.specs.Hosts.{answered_at};
ghost use Rattle.tql_host.specs.declared.host.Host as declared;
ghost use Rattle.tql_host.specs.contracts.host.Host.{the_row};

use std::alloc::Global;
use tql_host::host::{Host, answer, begun, ended};
use tql_host_cells::requests::{Request, Told};

/// What C holds of a host: its address, and nothing of what lies there.
#[repr(C)]
pub struct Tql {
    opaque: u8,
}

/// Returns the number of bytes of a host. Its memory lies at a multiple of 16, as `malloc` gives it.
#[unsafe(no_mangle)]
pub extern "C" fn tqlc_size() -> usize {
    size_of::<Host>()
}

/// Makes a host without an engine in the memory at `room`. Takes no other memory.
#[unsafe(no_mangle)]
pub unsafe extern "C" fn tqlc_begin(alloc: Global, room: *mut Tql)
    requires* { sem 𝓛 (room_at the_row room) }
    ensures* { sem 𝓛 (lies_at the_row full_share room (fresh alloc)) }
{
    let host = begun(alloc);
    (room as *mut Host).write(host);
}

/// Answers a request to a host. The room, the reply, the request and the text lie apart, each as long as it is told to
/// be.
#[unsafe(no_mangle)]
pub unsafe extern "C" fn tqlc_call(
    at: *mut Tql,
    request: &Request,
    text: &[u8],
    room: &mut [u8],
    told: &mut Told,
)
    ghost host: { declared.Host }
    requires* { sem 𝓛 (lies_at the_row full_share at host) }
    ensures* { sem 𝓛 (answered_at at (record { request = request.now; text = text.now; room = room.old }) host
        (record { told = told.new; room = room.new })) }
{
    answer(&mut *(at as *mut Host), request, text, room, told);
}

/// Ends a host. Its memory is room again.
#[unsafe(no_mangle)]
pub unsafe extern "C" fn tqlc_end(at: *mut Tql)
    ghost host: { declared.Host }
    requires* { sem 𝓛 (lies_at the_row full_share at host) }
    ensures* { sem 𝓛 (room_at the_row at) }
{
    ended((at as *mut Host).read());
}
