// Pieces of the texts of sets.

/// A stage up to the domain of its word.
pub const PIPE: &str =
    "block pipe1; clock clk; reset rst high 1; input iv; input [7:0] d; output v; output [7:0] o when ";

/// The stage from its domain on.
pub const PIPED: &str = ";
property reset { length 0; commit !v@0; cover v from 0 to 1; cover o from 0 to 1; next move; }
operation move { length 1; commit v@1 == iv@0; commit !iv@0 || o@1 == d@0; cover v from 1 to 2; cover o from 1 to 2; next move; }";

/// A handshake up to its constraints.
pub const WAITER: &str =
    "block waiter; clock clk; reset rst high 1; input go; input ok; output busy; ";

/// The handshake behind its constraints.
pub const WAITED: &str =
    "property reset { length 0; commit !busy@0; cover busy from 0 to 1; next idle, serve; }
operation idle { length 1; assume !busy@0 && !go@0; commit !busy@1; cover busy from 1 to 2; next idle, serve; }
operation serve { length 2 to 4 until !busy; assume !busy@0 && go@0; commit busy@1; commit busy@2 == !ok@1;
commit !busy@2 || busy@3 == !ok@2; commit !busy@2 || !busy@3 || busy@4 == !ok@3; cover busy from 1 to end + 1; next idle, serve; }";
