// The length of a request's body.
ghost use Rattle.std.specs.Prelude.{◌≡◌, ◌≤◌, ◌&&◌, ◌==◌, Option, All, length, map, option_map, slice_range, if◌then◌else◌};
ghost use Rattle.std.specs.List.{list_all};
ghost use Rattle.std.specs.Str.Parse.{digits_value};
ghost use Rattle.httparse.specs.Spans.{IsHeaderWithin, header_bytes};
ghost use Rattle.desk_http_request.specs.Fields.{declared, gives, has_field, is_count, is_named as is_named_by, values};
ghost use Rattle.desk_http_request.specs.Joins.{declared_of, first_of};

use httparse::spans::HeaderSpan;

/// The length of a body, as its header fields give it.
#[derive(Clone, Copy, Debug)]
pub enum Length {
    Absent,
    Faulty,
    Count(u64),
}

// Whether the header has the name, in any case.
fn is_named(buf: &[u8], header: &HeaderSpan, name: &[u8]) -> bool
    requires within { IsHeaderWithin (length buf.now) header.now }
    ensures { result ≡ is_named_by name.now (header_bytes buf.now header.now) }
{
    header.name.of(buf).eq_ignore_ascii_case(name)
}

/// Whether some header has the name, in any case.
pub fn has_header(buf: &[u8], headers: &[HeaderSpan], name: &[u8]) -> bool
    requires within { All (IsHeaderWithin (length buf.now)) headers.now }
    ensures { result ≡ has_field name.now (map (header_bytes buf.now) headers.now) }
{
    for header in headers {
        if is_named(buf, header, name) {
            return true;
        }
    }
    false
}

/// The length that the values of the headers with this name give.
pub fn declared_length(buf: &[u8], headers: &[HeaderSpan], name: &[u8]) -> Length
    requires within { All (IsHeaderWithin (length buf.now)) headers.now }
    ensures { declared_of result ≡ declared (values name.now (map (header_bytes buf.now) headers.now)) }
{
    for (i, header) in headers.iter().enumerate() {
        if is_named(buf, header, name) {
            return length_after(buf, headers.split_at(i + 1).1, name, header.value.of(buf));
        }
    }
    Length::Absent
}

// The length that the first value gives, where the values that follow give the same.
fn length_after(buf: &[u8], headers: &[HeaderSpan], name: &[u8], first: &[u8]) -> Length
    requires within { All (IsHeaderWithin (length buf.now)) headers.now }
    ensures { declared_of result ≡ first_of first.now (values name.now (map (header_bytes buf.now) headers.now)) }
{
    match count_of(first) {
        Some(count) => {
            if all_give(buf, headers, name, count) {
                Length::Count(count)
            } else {
                Length::Faulty
            }
        }
        None => Length::Faulty,
    }
}

// Whether all values of the headers with this name give the count.
fn all_give(buf: &[u8], headers: &[HeaderSpan], name: &[u8], count: u64) -> bool
    requires within { All (IsHeaderWithin (length buf.now)) headers.now }
    ensures { result ≡ list_all (gives count) (values name.now (map (header_bytes buf.now) headers.now)) }
{
    for header in headers {
        if is_named(buf, header, name) && count_of(header.value.of(buf)) != Some(count) {
            return false;
        }
    }
    true
}

/// The number that 1 to 10 digits write.
pub fn count_of(value: &[u8]) -> Option<u64>
    ensures { result ≡ (if is_count value.now then Some (digits_value 10 value.now) else None) }
{
    if value.is_empty() || value.len() > 10 {
        return None;
    }
    let mut count = 0;
    for b in value {
        if !b.is_ascii_digit() {
            return None;
        }
        count = count * 10 + u64::from(*b - b'0');
    }
    Some(count)
}
