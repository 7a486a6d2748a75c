// Laws about the definitions of requests.
ghost use Rattle.desk_http_connection.specs.OneRequest.{OneRequest};

/// The bytes of a connection that begin with a head may be taken for one request at most.
pub fn one_request()
    ensures { OneRequest }
{}
