// The routes.
ghost use Rattle.std.specs.Prelude.{◌≡◌, ◌==◌, ◌&&◌, ◌≤◌, ℕ, List, IfOk, map, nat_le, length, option_map, bytes_eq, codes};
ghost use Rattle.std.specs.List.{list_all, slice_split};
ghost use Rattle.desk_http_request.specs.Places.{file_named as file_named_by, is_block_name as is_block_name_by, is_name_byte, line_number as line_number_of, path_of as path_of_target, place_of as place_of_path, place_below as place_below_by, place_of_part as place_of_part_by, place_of_trace as place_of_trace_by, place_of_root as place_of_root_by, place_of_segments as place_of_segments_by};
ghost use Rattle.desk_http_request.specs.Seen.{seen_place};

use crate::wanted::PageFile;
use std::alloc::{AllocError, Global};

/// What a path names. A block's name is any segment here that isn't empty.
#[derive(Clone, Copy, Debug)]
pub enum Place<'a> {
    /// `/`, `/page.css` or `/page.js`
    File(PageFile),
    /// `/blocks`
    Blocks,
    /// `/signoffs`
    Signoffs,
    /// `/blocks/{name}/module`
    Module(&'a [u8]),
    /// `/blocks/{name}/set`
    Set(&'a [u8]),
    /// `/blocks/{name}/check`
    Check(&'a [u8]),
    /// `/blocks/{name}/report`
    Report(&'a [u8]),
    /// `/blocks/{name}/sign`
    Sign(&'a [u8]),
    /// `/blocks/{name}/trace/{line}`
    Trace(&'a [u8], &'a [u8]),
}

/// The path of a target: what stands before its first `?`.
pub fn path_of(target: &[u8]) -> &[u8]
    ensures { result.now ≡ path_of_target target.now }
{
    for (i, b) in target.iter().enumerate() {
        if *b == b'?' {
            return target.split_at(i).0;
        }
    }
    target
}

/// What the path names, if anything.
pub fn place_of(alloc: Global, path: &[u8]) -> Result<Option<Place<'_>>, AllocError>
    ensures { IfOk result (λ o. option_map (λ p. seen_place p) o ≡ place_of_path path.now) }
{
    let segments = segments(alloc, path)?;
    Ok(place_of_segments(&segments))
}

// The parts of the path between slashes.
fn segments(alloc: Global, path: &[u8]) -> Result<Vec<&[u8]>, AllocError>
    ensures { IfOk result (λ v. map (λ s. s.now) v.items ≡ slice_split (λ b. b == 47) path.now) }
{
    path.split(|b| *b == b'/').collect(alloc)
}

fn place_of_segments<'a>(segments: &[&'a [u8]]) -> Option<Place<'a>>
    ensures { option_map (λ p. seen_place p) result ≡ place_of_segments_by (map (λ s. s.now) segments.now) }
{
    match segments {
        [[], root] => place_of_root(root),
        [[], root, name, part] => place_below(root, name, part),
        [[], root, name, part, line] => place_of_trace(root, name, part, line),
        _ => None,
    }
}

fn place_below<'a>(root: &[u8], name: &'a [u8], part: &[u8]) -> Option<Place<'a>>
    ensures { option_map (λ p. seen_place p) result ≡ place_below_by root.now name.now part.now }
{
    if is_word(root, b"blocks") && !name.is_empty() {
        place_of_part(name, part)
    } else {
        None
    }
}

fn place_of_trace<'a>(root: &[u8], name: &'a [u8], part: &[u8], line: &'a [u8]) -> Option<Place<'a>>
    ensures { option_map (λ p. seen_place p) result ≡ place_of_trace_by root.now name.now part.now line.now }
{
    if is_word(root, b"blocks") && !name.is_empty() && is_word(part, b"trace") && !line.is_empty() {
        Some(Place::Trace(name, line))
    } else {
        None
    }
}

/// Whether the bytes are these.
pub fn is_word(bytes: &[u8], word: &[u8]) -> bool
    ensures { result ≡ bytes_eq bytes.now word.now }
{
    bytes == word
}

fn place_of_root<'a>(root: &[u8]) -> Option<Place<'a>>
    ensures { option_map (λ p. seen_place p) result ≡ place_of_root_by root.now }
{
    if is_word(root, b"blocks") {
        return Some(Place::Blocks);
    }
    if is_word(root, b"signoffs") {
        return Some(Place::Signoffs);
    }
    Some(Place::File(file_named(root)?))
}

// The file of the page that the path's only segment names.
fn file_named(root: &[u8]) -> Option<PageFile>
    ensures { result ≡ file_named_by root.now }
{
    if root.is_empty() {
        return Some(PageFile::Html);
    }
    if is_word(root, b"page.css") {
        return Some(PageFile::Style);
    }
    if is_word(root, b"page.js") {
        return Some(PageFile::Script);
    }
    None
}

fn place_of_part<'a>(name: &'a [u8], part: &[u8]) -> Option<Place<'a>>
    ensures { option_map (λ p. seen_place p) result ≡ place_of_part_by name.now part.now }
{
    if is_word(part, b"module") {
        return Some(Place::Module(name));
    }
    if is_word(part, b"set") {
        return Some(Place::Set(name));
    }
    if is_word(part, b"check") {
        return Some(Place::Check(name));
    }
    if is_word(part, b"report") {
        return Some(Place::Report(name));
    }
    if is_word(part, b"sign") {
        return Some(Place::Sign(name));
    }
    None
}

/// Whether the name is 1 to 64 letters, digits, `_`, `-` and `.`.
pub fn is_block_name(name: &[u8]) -> bool
    ensures { result ≡ is_block_name_by name.now }
{
    if name.is_empty() || name.len() > 64 {
        return false;
    }
    for b in name {
        if !b.is_ascii_alphanumeric() && *b != b'_' && *b != b'-' && *b != b'.' {
            return false;
        }
    }
    true
}

/// The number of a line: 0 where it isn't 1 to 5 digits.
pub fn line_number(line: &[u8]) -> u32
    ensures { result ≡ line_number_of line.now }
{
    if line.is_empty() || line.len() > 5 {
        return 0;
    }
    let mut number = 0;
    for b in line {
        if !b.is_ascii_digit() {
            return 0;
        }
        number = number * 10 + u32::from(*b - b'0');
    }
    number
}
