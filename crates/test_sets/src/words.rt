// Words of 4 bits, worked by hand.
use std::test::Fail;
use word_core::Word;

#[test]
fn words_of_four_bits(rt: HostRuntime) -> Result<(), Fail> {
    let a = Word::new(4, 10);
    let b = Word::new(4, 7);
    let two = Word::new(2, 2);
    for (name, result, want) in [
        ("10 + 7", Word::add(a, b), 1),
        ("7 - 10", Word::sub(b, a), 13),
        ("10 * 7", Word::mul(a, b), 6),
        ("1010 << 2", Word::shl(a, two), 8),
        ("1010 >> 2", Word::shr(a, two), 2),
        ("1010 >>> 2", Word::sar(a, two), 14),
        ("1010 >>> 7", Word::sar(a, b), 15),
        ("-6 < 7", Word::slt(a, b), 1),
        ("10 < 7", Word::ult(a, b), 0),
        ("bits 1 and 2 of 1010", Word::slice(a, 1, 2), 1),
        ("10 1010", Word::concat(two, a), 42),
        ("1010 extended to 6 bits", Word::extend(a, 6, true), 58),
    ] {
        assert_eq!(rt; result.value(), want, "{name}");
    }
    Ok(())
}
