use desk_http_request::Refusal;
use std::test::Fail;

#[test]
fn refusals_are_shown(rt: HostRuntime) -> Result<(), Fail> {
    for (refusal, shown) in [
        (Refusal::Head, "malformed request head"),
        (Refusal::LargeHead, "request head too large"),
        (Refusal::Coding, "transfer coding not supported"),
        (Refusal::Length, "invalid content length"),
        (Refusal::NoLength, "PUT without content length"),
        (Refusal::Long, "body of more than 1,048,576 bytes"),
        (Refusal::NoRoute, "no such route"),
        (Refusal::Method, "method not allowed for this route"),
        (Refusal::Name, "invalid block name"),
    ] {
        assert_eq!(rt; refusal.to_string(rt.alloc())?.as_str(), shown);
    }
    Ok(())
}
