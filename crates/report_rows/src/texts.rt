//! Texts of reports, and how they are read.

use report_reading::{ReportFault, read_report};
use report_text::Report;
use std::alloc::Global;

/// What the text is read as. The texts here are short.
pub fn read(alloc: Global, text: &[u8]) -> Result<Report, ReportFault> {
    if text.len() >= 1_000_000 {
        return Err(ReportFault::OutOfMemory);
    }
    read_report(alloc, text)
}

/// A goal that holds in each state, and one that holds a step later.
pub const REACHED: &[u8] = b"ketch 1
size 0 1 1
options 0 0 2 100 4 1 20000 0 0 0
history 2
0 0 0 r zero 0
1 0 1 r zero 1
seeds 0
invs 0
goals 2
goal 0 reached 0
1
b0
0

.
goal 1 reached 1
1
b1
0


.
spents 0
refutes 0
end 2 0 0
";

/// Two latches of which exactly one is true.
pub const PROVED: &[u8] = b"ketch 1
size 0 2 2
options 1 0 2 100 4 1 20000 2 0 0
history 4
0 0 1 r zero 0
1 0 2 r zero 1
2 0 0 u proved 2
3 0 3 u proved 3
seeds 0
invs 1
inv 2
1 2 0
proof 1
6 0 4 5 2 0
-1 -2 0
proof 1
6 0 4 5 3 0
goals 4
goal 0 unreachable 2 inv 0
proof 1
6 0 4 5 2 0
goal 1 reached 0
1
b1
10

.
goal 2 reached 1
1
b2
10


.
goal 3 unreachable 3 inv 0
proof 1
6 0 4 5 3 0
spents 0
refutes 0
end 2 2 0
";

/// Made up: each kind of line, and the greatest number of each type.
pub const EVERY_LINE: &[u8] = b"ketch 1
size 1 2 4294967295
options 0 1 2 3 4 18446744073709551615 18446744073709551615 5 6 1
history 6
0 4294967295 7 r zero 18446744073709551615
18446744073709551615 0 4294967295 u proved 0
5 1 1 r walk:3 0
5 1 1 r sweep 0
5 1 1 r hop:4294967295 0
5 1 1 u again:0 0
seeds 3
seed 0 none
seed 1 2
10
1
0
01
seed 2 0
11
00
invs 2
inv 2
1 -2147483648 0
proof 2
9223372036854775807 2147483647 -2147483648 0 -1 9223372036854775807 0
7 d 1 2 0
0
proof 1
1 0 0
inv 0
goals 4
goal 0 reached 18446744073709551615
1
b0
10
1
0
.
goal 1 unreachable 2 inv 4294967295
proof 0
goal 2 open depth none hops 3 none noseed strength 2
goal 3 open depth 4294967295 hops strength none
spents 4
spent sweep 4294967295
blocked 3 0 1 4294967295
proof 0
spent hop 1 0
blocked 0
proof 0
spent kept 0 2
1 0
0
proof 0
spent excludes 2 0
proof 0
refutes 2
refute sweep 0
blocked 0
proof 0
refute hop 1 3
blocked 1 7
proof 0
end 1 4294967295 0
";
