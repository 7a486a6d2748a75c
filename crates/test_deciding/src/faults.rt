// Each fault of a store of proofs as it is shown.
use proof_store::StoreFault;
use std::test::Fail;

#[test]
fn faults_are_shown(rt: HostRuntime) -> Result<(), Fail> {
    for (fault, shown) in [
        (StoreFault::Keeper, "the keeper of proofs failed"),
        (StoreFault::Memory, "out of memory"),
    ] {
        assert_eq!(rt; fault.to_string(rt.alloc())?.as_str(), shown);
    }
    Ok(())
}
