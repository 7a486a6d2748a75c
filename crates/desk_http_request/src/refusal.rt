// Why a request is refused.
use std::error::Error;
use std::fmt;

/// Why a request is refused at its head. The causes stand in the order in which they are looked for.
#[derive(Clone, Copy, Debug, PartialEq, Eq)]
pub enum Refusal {
    /// No continuation of the front is a head.
    Head,
    /// A bound ended the front, which holds no whole head.
    LargeHead,
    /// A field `Transfer-Encoding`.
    Coding,
    /// A `Content-Length` that isn't 1 to 10 digits, or two that differ as numbers.
    Length,
    /// A PUT without `Content-Length`.
    NoLength,
    /// A `Content-Length` above 1,048,576.
    Long,
    /// The path is no route.
    NoRoute,
    /// The method isn't the route's.
    Method,
    /// The block's name isn't 1 to 64 letters, digits, `_`, `-` and `.`.
    Name,
}

impl fmt::Display for Refusal {
    fn fmt<W: fmt::Write>(&self, f: &mut fmt::Formatter<W>) -> fmt::Result {
        f.write_str(match self {
            Refusal::Head => "malformed request head",
            Refusal::LargeHead => "request head too large",
            Refusal::Coding => "transfer coding not supported",
            Refusal::Length => "invalid content length",
            Refusal::NoLength => "PUT without content length",
            Refusal::Long => "body of more than 1,048,576 bytes",
            Refusal::NoRoute => "no such route",
            Refusal::Method => "method not allowed for this route",
            Refusal::Name => "invalid block name",
        })
    }
}

impl Error for Refusal {}
