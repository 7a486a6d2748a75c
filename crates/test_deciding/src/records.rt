use clause_check::Lit;
use proof_store_records::{fits_version_1, read_steps, record_fits, write_steps, write_steps_1};
use std::process::Abort;
use std::test::Fail;

// Records of the same steps in both versions: an empty clause; two steps; none; the greatest variable and the greatest
// hint.
const RECORDS: &[(&[u8], &[u8])] = &[
    (
        b"\x44\x31\0\0\0\x01\0\0\0\0\0\0\0\x01\0\0\0\0\0\0\0\x05",
        b"\x44\x32\x01\x00\x01\x05",
    ),
    (
        b"\x44\x31\0\0\0\x02\0\0\0\x01\0\0\0\0\0\0\0\x07\0\0\0\x02\0\0\0\0\0\0\0\x09\0\0\0\0\0\0\0\x08\0\0\0\0\0\0\0\x01\0\0\0\0\0\0\0\x0a",
        b"\x44\x32\x02\x01\x07\x02\x09\x03\x00\x01\x0a",
    ),
    (b"\x44\x31\0\0\0\0", b"\x44\x32\x00"),
    (
        b"\x44\x31\0\0\0\x01\0\0\0\x01\0\0\0\x01\xff\xff\xff\xff\0\0\0\x02\0\0\0\0\xff\xff\xff\xff\0\0\0\0\xff\xff\xff\xff",
        b"\x44\x32\x01\x01\xff\xff\xff\xff\x1f\x02\xff\xff\xff\xff\x0f\x00",
    ),
];

// Bytes that are no record, the second version's first: cut, and with a byte behind; a varint that ends in 0, one of
// eleven bytes, one of 2^64; a distance of 0 as a lower one, and a hint below 0; a variable twice; a hint and a
// variable of 2^32; no version; the first version cut, with a byte behind, with a variable twice, and with a hint and a
// variable of 2^32.
const NO_RECORDS: &[&[u8]] = &[
    b"\x44\x32\x01\x00\x01",
    b"\x44\x32\x01\x00\x01\x05\x00",
    b"\x44\x32\x01\x00\x01\x85\x00",
    b"\x44\x32\x01\x00\x01\x80\x80\x80\x80\x80\x80\x80\x80\x80\x80\x01",
    b"\x44\x32\x01\x00\x01\x80\x80\x80\x80\x80\x80\x80\x80\x80\x02",
    b"\x44\x32\x01\x00\x02\x05\x01",
    b"\x44\x32\x01\x00\x02\x05\x0d",
    b"\x44\x32\x01\x02\x06\x07\x01\x05",
    b"\x44\x32\x01\x00\x01\x80\x80\x80\x80\x10",
    b"\x44\x32\x01\x01\x80\x80\x80\x80\x20\x00",
    b"",
    b"\x45\x31\0\0\0\0",
    b"\x44\x33\0\0\0\0",
    b"\x44\x31\0\0\0",
    b"\x44\x31\0\0\0\0\0",
    b"\x44\x31\0\0\0\x01\0\0\0\x02\0\0\0\0\0\0\0\x06\0\0\0\0\0\0\0\x07\0\0\0\0",
    b"\x44\x31\0\0\0\x01\0\0\0\0\0\0\0\x01\0\0\0\x01\0\0\0\0",
    b"\x44\x31\0\0\0\x01\0\0\0\x01\0\0\0\x02\0\0\0\0\0\0\0\0",
];

// Reads the record of the first version, and writes that of the second.
fn forth(rt: &(impl Abort + AllocGlobal), first: &[u8], second: &[u8]) -> Result<(), Fail> {
    let steps = read_steps(rt.alloc(), first)?.ok_or("no record of version 1")?;
    let read = steps.as_slice();
    let fits = record_fits(read);
    assert!(rt; fits);
    let written = write_steps(rt.alloc(), read)?;
    assert_eq!(rt; written.as_slice(), second);
    Ok(())
}

// Reads the record of the second version, and writes that of the first.
fn back(rt: &(impl Abort + AllocGlobal), first: &[u8], second: &[u8]) -> Result<(), Fail> {
    let steps = read_steps(rt.alloc(), second)?.ok_or("no record of version 2")?;
    let read = steps.as_slice();
    let fits = fits_version_1(read);
    assert!(rt; fits);
    let written = write_steps_1(rt.alloc(), read)?;
    assert_eq!(rt; written.as_slice(), first);
    Ok(())
}

#[test]
fn records_of_the_same_steps(rt: HostRuntime) -> Result<(), Fail> {
    for (first, second) in RECORDS {
        forth(&rt, first, second)?;
        back(&rt, first, second)?;
    }
    Ok(())
}

#[test]
fn a_step_as_read(rt: HostRuntime) -> Result<(), Fail> {
    let steps = read_steps(rt.alloc(), b"\x44\x32\x01\x01\x07\x02\x09\x03")?.ok_or("no record")?;
    let step = steps.as_slice().first().ok_or("no step")?;
    let lit = Lit {
        var: 3,
        negative: true,
    };
    assert_eq!(rt; step.clause.lits(), [lit].as_slice());
    assert_eq!(rt; step.hints.as_slice(), [9, 8].as_slice());
    Ok(())
}

#[test]
fn no_records(rt: HostRuntime) -> Result<(), Fail> {
    for bytes in NO_RECORDS {
        let read = read_steps(rt.alloc(), bytes)?;
        assert!(rt; read.is_none(), "at {bytes:?}");
    }
    Ok(())
}
