// The tokens of a text, shown as a line of words.
use std::alloc::{AllocError, Global};
use std::fmt::Write;
use std::process::Abort;
use std::test::Fail;
use vlog_read_lex::{ReadFault, read_tokens};
use vlog_tree::{Kind, Number, Token};

fn show_text(out: &mut String, bytes: &[u8]) -> Result<(), AllocError> {
    for byte in bytes {
        out.push(char::from(*byte))?;
    }
    Ok(())
}

// The size or `-`, `s` or `u`, the value, `?` and the wild bits, and `p` if it is plain.
fn show_number(out: &mut String, number: Number) -> Result<(), AllocError> {
    match number.size {
        Some(size) => write!(out, "{size}")?,
        None => out.push('-')?,
    }
    out.push(if number.signed { 's' } else { 'u' })?;
    let value = number.value;
    write!(out, "{value}")?;
    if number.wildcard {
        let wild = number.wild;
        write!(out, "?{wild}")?;
    }
    if number.plain {
        out.push('p')?;
    }
    Ok(())
}

fn show_token(out: &mut String, token: &Token) -> Result<(), AllocError> {
    let at = token.at;
    let end = token.end;
    write!(out, "{at}-{end}")?;
    match &token.kind {
        Kind::Word(text) => {
            out.push('w')?;
            show_text(out, text.bytes())
        }
        Kind::Sign(text) => {
            out.push('s')?;
            show_text(out, text.bytes())
        }
        Kind::Number(number) => {
            out.push('n')?;
            show_number(out, *number)
        }
        Kind::Outside => {
            out.push('o')?;
            Ok(())
        }
    }
}

fn show_tokens(out: &mut String, tokens: &[Token]) -> Result<(), AllocError> {
    for token in tokens {
        if !out.is_empty() {
            out.push(' ')?;
        }
        show_token(out, token)?;
    }
    Ok(())
}

fn show_reading(alloc: Global, out: &mut String, text: &[u8], set: bool) -> Result<(), AllocError> {
    match read_tokens(alloc, text, set) {
        Ok(tokens) => show_tokens(out, tokens.as_slice()),
        Err(ReadFault::Bytes(at)) => write!(out, "Bytes {at}"),
        Err(ReadFault::Number(at)) => write!(out, "Number {at}"),
        Err(ReadFault::Outside(at)) => write!(out, "Outside {at}"),
        Err(_) => out.push_str("other"),
    }
}

// The tokens of a text, or its fault.
fn shown(alloc: Global, text: &[u8], set: bool) -> Result<String, AllocError> {
    let mut out = String::new(alloc);
    show_reading(alloc, &mut out, text, set)?;
    Ok(out)
}

// A text, and the line of its tokens.
type Row<'a> = (&'a [u8], &'a str);

fn rows(rt: &(impl Abort + AllocGlobal), set: bool, rows: &[Row]) -> Result<(), Fail> {
    for (text, want) in rows {
        let line = shown(rt.alloc(), text, set)?;
        assert_eq!(rt; line.as_str(), *want, "at {text:?}");
    }
    Ok(())
}

const GAPS: &[Row] = &[
    (b"", ""),
    (b" \t\n\r\x0ca", "5-6wa"),
    (b"a//b\nc", "0-1wa 5-6wc"),
    (b"a//b", "0-1wa"),
    (b"/* a */b", "7-8wb"),
    (b"/*/b", "Bytes 0"),
    (b"/* /* */ */", "9-10s* 10-11s/"),
    (b"(* x *)a", "7-8wa"),
    (b"a (* x", "Bytes 2"),
    (b"(*)", "0-1s( 1-2s* 2-3s)"),
    (b"(* )", "0-1s( 1-2s* 3-4s)"),
    (b"(**)a", "4-5wa"),
    (b"`timescale 1ns/1ps\na", "19-20wa"),
    (b"`default_nettype none", ""),
];

#[test]
fn gaps(rt: HostRuntime) -> Result<(), Fail> {
    rows(&rt, false, GAPS)
}

const WORDS: &[Row] = &[
    (b"_a$1 B", "0-4w_a$1 5-6wB"),
    (b"And", "0-3wAnd"),
    (b"a and", "Outside 2"),
    (b"$signed(a)", "0-7w$signed 7-8s( 8-9wa 9-10s)"),
    (b"$display", "Outside 0"),
    (b"$", "Outside 0"),
    (b"`define", "Outside 0"),
    (b"`timescales", "Outside 0"),
    (b"`", "Outside 0"),
];

#[test]
fn words(rt: HostRuntime) -> Result<(), Fail> {
    rows(&rt, false, WORDS)
}

const SIGNS: &[Row] = &[
    (b"a<<<b", "0-1wa 1-4s<<< 4-5wb"),
    (b"<<=>>", "0-2s<< 2-3s= 3-5s>>"),
    (b"=>", "0-1s= 1-2s>"),
    (b"+:-:", "0-2s+: 2-4s-:"),
    (b"~&~|~^^~", "0-2s~& 2-4s~| 4-6s~^ 6-8s^~"),
    (b"# @", "0-1s# 2-3s@"),
    (b"a === b", "Outside 2"),
    (b"!==", "Outside 0"),
    (b"***", "Outside 0"),
    (b"\"", "Outside 0"),
    (b"\\a", "Outside 0"),
    (b"a \x01", "Bytes 2"),
    (b"a\xff", "Bytes 1"),
];

#[test]
fn signs(rt: HostRuntime) -> Result<(), Fail> {
    rows(&rt, false, SIGNS)
}

const NUMBERS: &[Row] = &[
    (b"12", "0-2n-s12p"),
    (b"1_2", "0-3n-s12"),
    (b"4294967295", "0-10n-s4294967295p"),
    (b"5x", "0-1n-s5p 1-2wx"),
    (b"4'b1010", "0-7n4u10"),
    (b"4 'b 10_10", "0-10n4u10"),
    (b"4'sd9", "0-5n4s9"),
    (b"4'SHf", "0-5n4s15"),
    (b"4'h1f", "0-5n4u15"),
    (b"8'hz", "0-4n8u0?255"),
    (b"8'b0?", "0-5n8u0?1"),
    (b"8'h?0", "0-5n8u0?240"),
    (b"4'h1?", "0-5n4u0?15"),
    (b"1'b?0", "0-5n1u0?0"),
    (b"64'hz", "0-5n64u0?18446744073709551615"),
    (b"'d3", "0-3n-u3"),
    (b"'sd3", "0-4n-s3"),
    (b"'hffffffff", "0-10n-u4294967295"),
    (b"64'hffffffffffffffff", "0-20n64u18446744073709551615"),
    (b"12/**/'d3", "0-2n-s12p 6-9n-u3"),
    (b"4'b1 2", "0-4n4u1 5-6n-s2p"),
];

#[test]
fn numbers(rt: HostRuntime) -> Result<(), Fail> {
    rows(&rt, false, NUMBERS)
}

const NUMBER_FAULTS: &[Row] = &[
    (b"4294967296", "Number 0"),
    (b"a 4'", "Number 2"),
    (b"4'q", "Number 0"),
    (b"4'b", "Number 0"),
    (b"4' b1", "Number 0"),
    (b"4'b_1", "Number 0"),
    (b"0'b1", "Number 0"),
    (b"65'b1", "Number 0"),
    (b"99999999999999999999'b1", "Number 0"),
    (b"4'b2", "Number 0"),
    (b"4'o8", "Number 0"),
    (b"4'da", "Number 0"),
    (b"4'dz", "Number 0"),
    (b"4'd?", "Number 0"),
    (b"'hz", "Number 0"),
    (b"4'shz", "Number 0"),
    (b"64'h1ffffffffffffffff", "Number 0"),
    (b"'h100000000", "Number 0"),
    (b"4'bx", "Outside 0"),
    (b"0'dX", "Outside 0"),
    (b"4'b_x", "Outside 0"),
];

#[test]
fn number_faults(rt: HostRuntime) -> Result<(), Fail> {
    rows(&rt, false, NUMBER_FAULTS)
}

const SETS: &[Row] = &[
    (b"(* x *)", "0-1s( 1-2s* 3-4wx 5-6s* 6-7s)"),
    (b"`timescale a", "0-10o 11-12wa"),
    (b"and", "0-3o"),
    (b"4'bx", "0-4o"),
    (b"=== a", "0-3o 4-5wa"),
    (b"$display", "0-8o"),
    (b"\"", "0-1o"),
    (b"`", "0-1o"),
    (b"4'q", "Number 0"),
    (b"/*", "Bytes 0"),
    (b"q@0", "0-1wq 1-2s@ 2-3n-s0p"),
];

#[test]
fn sets(rt: HostRuntime) -> Result<(), Fail> {
    rows(&rt, true, SETS)
}
