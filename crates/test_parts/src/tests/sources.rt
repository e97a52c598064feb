//! tql_run: a read that is interrupted is repeated, and one that fails is counted.
use std::test::Fail;
use test_devices::Chunks;
use tql_memory::memory;
use tql_result::sink::Sink;
use tql_result::vec_sink::VecSink;
use tql_run::device::{Input, Source};
use tql_run::std_source::StdSource;

/// Returns the byte that a pull after a flush reads, and the number of failed pulls.
fn pulled(source: &mut StdSource<Chunks<'_>>, sink: &mut VecSink) -> (Option<u8>, u64) {
    let mut buffer = [0u8; 4];
    let byte = match sink.flush() {
        Ok(()) => match source.pull(&*sink, &mut buffer) {
            Ok(1) => Some(buffer[0]),
            _ => None,
        },
        Err(_) => None,
    };
    (byte, source.faults())
}

#[test]
fn an_interrupted_read_is_made_again(rt: HostRuntime) -> Result<(), Fail> {
    let mut sink = VecSink::new(Vec::new(memory(rt.alloc(), u64::MAX)?));
    for interrupts in [0u64, 1, 3] {
        let mut source = StdSource::new(Chunks {
            left: b"ab",
            size: 1,
            giving_left: u64::MAX,
            reads_left: 2,
            interrupts,
            interrupts_left: interrupts,
        });
        let found = (
            pulled(&mut source, &mut sink),
            pulled(&mut source, &mut sink),
            pulled(&mut source, &mut sink),
        );
        assert!(rt; found == ((Some(b'a'), 0), (Some(b'b'), 0), (None, 1)));
    }
    Ok(())
}
