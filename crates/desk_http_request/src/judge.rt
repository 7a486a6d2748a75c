// What the bytes so far come to.
ghost use Rattle.std.specs.Prelude.{◌≡◌, ◌<◌, length, if◌then◌else◌};
ghost use Rattle.desk_http_request.specs.Reading.{Judges};
ghost use Rattle.desk_http_request.specs.declared.judge.Judgement.TheVariants.{Large, Partial};

use crate::bounds::front_len;
use httparse::spans::{HeaderSpan, RequestSpans, parse_request};
use httparse::{Error, Status};

/// A whole head; or bytes of which no continuation is one; or too many bytes without one; or more are needed.
#[derive(Clone, Copy, Debug)]
pub enum Judgement {
    Whole(RequestSpans),
    Hopeless,
    Large,
    Partial,
}

/// Judges the front of the bytes, with room for 65 headers.
pub fn judge(bytes: &[u8], headers: &mut [HeaderSpan]) -> Judgement
    requires { length headers.old ≡ 65 }
    ensures judged { Judges bytes.now headers.new result }
    ensures partial { result ≡ Partial → length bytes.now < 16384 }
{
    let (len, full) = front_len(bytes);
    let (front, _) = bytes.split_at(len);
    match parse_request(front, headers) {
        Ok(Status::Complete(spans)) => Judgement::Whole(spans),
        Ok(Status::Partial) => unfinished(full),
        Err(Error::TooManyHeaders) => unfinished(full),
        Err(_) => Judgement::Hopeless,
    }
}

fn unfinished(full: bool) -> Judgement
    ensures { result ≡ (if full then Large else Partial) }
{
    if full {
        Judgement::Large
    } else {
        Judgement::Partial
    }
}
