// JSON bodies.
ghost use Rattle.std.specs.Prelude.{◌≡◌, ◌++◌, IfOk, OnOk, map, codes, decimal, string_bytes};
ghost use Rattle.std.specs.List.{flat_map};
ghost use Rattle.desk_http_reply.specs.Reply.{comma_before, comma_list, error_body as error_text, name_item, shown_byte, sign_item};

use desk_core_commands::{Names, Signs};
use outside::{Sign, Text};
use std::alloc::{AllocError, Global};

/// `{"error":"TEXT"}`
pub fn error_body(alloc: Global, text: &[u8]) -> Result<Vec<u8>, AllocError>
    ensures { IfOk result (λ body. body.items ≡ error_text text.now) }
{
    let mut body = b"{\"error\":\"".to_vec(alloc)?;
    body.extend_from_slice(text)?;
    body.extend_from_slice(b"\"}")?;
    Ok(body)
}

/// `{"number":N}`
pub fn number_body(alloc: Global, number: u64) -> Result<Vec<u8>, AllocError>
    ensures { IfOk result (λ body. body.items ≡ codes "{\"number\":" ++ decimal number ++ codes "}") }
{
    let mut body = b"{\"number\":".to_vec(alloc)?;
    add_decimal(alloc, &mut body, number)?;
    body.extend_from_slice(b"}")?;
    Ok(body)
}

/// Adds the number in decimal.
pub fn add_decimal(alloc: Global, bytes: &mut Vec<u8>, number: u64) -> Result<(), AllocError>
    ensures { OnOk result (bytes.new.items ≡ bytes.old.items ++ decimal number) }
{
    let text = format!(in alloc; "{number}")?;
    bytes.extend_from_slice(text.as_bytes())
}

/// The names as a list of strings.
pub fn names_body(alloc: Global, names: &Names) -> Result<Vec<u8>, AllocError>
    ensures { IfOk result (λ body. body.items ≡ comma_list (map name_item names.now)) }
{
    let Some((first, rest)) = names.as_slice().split_first() else {
        return b"[]".to_vec(alloc);
    };
    let mut body = b"[".to_vec(alloc)?;
    add_name(&mut body, first.bytes())?;
    add_more_names(&mut body, rest)?;
    body.push(b']')?;
    Ok(body)
}

/// The sign-offs as a list of objects.
pub fn signs_body(alloc: Global, signs: &Signs) -> Result<Vec<u8>, AllocError>
    ensures { IfOk result (λ body. body.items ≡ comma_list (map sign_item signs.now)) }
{
    let Some((first, rest)) = signs.as_slice().split_first() else {
        return b"[]".to_vec(alloc);
    };
    let mut body = b"[".to_vec(alloc)?;
    add_sign(alloc, &mut body, first)?;
    add_more_signs(alloc, &mut body, rest)?;
    body.push(b']')?;
    Ok(body)
}

fn add_more_names(body: &mut Vec<u8>, names: &[Text]) -> Result<(), AllocError>
    ensures { OnOk result (body.new.items ≡ body.old.items ++ flat_map comma_before (map name_item names.now)) }
{
    for name in names {
        body.push(b',')?;
        add_name(body, name.bytes())?;
    }
    Ok(())
}

fn add_more_signs(alloc: Global, body: &mut Vec<u8>, signs: &[Sign]) -> Result<(), AllocError>
    ensures { OnOk result (body.new.items ≡ body.old.items ++ flat_map comma_before (map sign_item signs.now)) }
{
    for sign in signs {
        body.push(b',')?;
        add_sign(alloc, body, sign)?;
    }
    Ok(())
}

fn add_name(body: &mut Vec<u8>, name: &[u8]) -> Result<(), AllocError>
    ensures { OnOk result (body.new.items ≡ body.old.items ++ name_item name.now) }
{
    body.push(b'"')?;
    add_shown(body, name)?;
    body.push(b'"')?;
    Ok(())
}

#[tactic(auto, unfolding(crate::specs::Reply::sign_item))]
fn add_sign(alloc: Global, body: &mut Vec<u8>, sign: &Sign) -> Result<(), AllocError>
    ensures { OnOk result (body.new.items ≡ body.old.items ++ sign_item sign.now) }
{
    body.extend_from_slice(b"{\"block\":\"")?;
    add_shown(body, sign.block.bytes())?;
    body.extend_from_slice(b"\",\"number\":")?;
    add_decimal(alloc, body, sign.number)?;
    body.extend_from_slice(b"}")?;
    Ok(())
}

// Adds the bytes of a name, those that JSON would escape as `?`.
fn add_shown(body: &mut Vec<u8>, name: &[u8]) -> Result<(), AllocError>
    ensures { OnOk result (body.new.items ≡ body.old.items ++ map shown_byte name.now) }
{
    for b in name {
        body.push(shown(*b))?;
    }
    Ok(())
}

fn shown(b: u8) -> u8
    ensures { result ≡ shown_byte b }
{
    if b.is_ascii_alphanumeric() || b == b'_' || b == b'-' || b == b'.' {
        b
    } else {
        b'?'
    }
}
