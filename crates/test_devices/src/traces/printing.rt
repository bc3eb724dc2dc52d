use net_plan::{Event, What};
use std::test::Fail;
use trace_text::print;
use tte_io::MemorySink;
use tte_units::Units;
use worked_network::{network_of, numbers};

#[test]
fn a_line_is_one_put(rt: HostRuntime) -> Result<(), Fail> {
    let network = network_of(rt.alloc(), numbers())?;
    let mut sink = MemorySink::new(rt.alloc(), 6, &[2])?;
    let end = Event {
        time: Units(0),
        what: What::End,
    };
    assert!(rt; print(&network, &end, &mut sink) == Ok(()));
    assert!(rt; print(&network, &end, &mut sink).is_err());
    assert!(rt; sink.written() == b"0 end\n".as_slice());
    Ok(())
}
