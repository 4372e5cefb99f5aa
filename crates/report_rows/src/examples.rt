//! The reports of examples/, byte for byte.

pub const TOGGLE: &[u8] = b"ketch 1
size 0 1 1
options 10 0 1000 100 4 1 20000 2 0 0
history 2
0 0 0 r zero 0
1 0 1 r zero 1
seeds 0
invs 0
goals 2
goal 0 reached 0
1
b0
0

.
goal 1 reached 1
1
b1
0


.
spents 0
refutes 0
end 2 0 0
";

pub const RING: &[u8] = b"ketch 1
size 0 2 2
options 10 0 1000 100 4 1 20000 2 0 0
history 4
0 0 1 r zero 0
1 0 2 r zero 1
2 0 0 u proved 2
3 0 3 u proved 3
seeds 0
invs 1
inv 2
1 2 0
proof 1
6 0 4 5 2 0
-1 -2 0
proof 1
6 0 4 5 3 0
goals 4
goal 0 unreachable 2 inv 0
proof 1
6 0 4 5 2 0
goal 1 reached 0
1
b1
10

.
goal 2 reached 1
1
b2
10


.
goal 3 unreachable 3 inv 0
proof 1
6 0 4 5 3 0
spents 0
refutes 0
end 2 2 0
";

pub const LOCK: &[u8] = b"ketch 1
size 1 2 2
options 10 0 1000 100 4 1 20000 2 0 0
history 4
0 0 0 r zero 0
1 0 1 r sweep 1
2 0 2 r sweep 2
3 0 3 u proved 3
seeds 0
invs 1
inv 1
-1 -2 0
proof 1
11 0 9 10 3 6 0
goals 4
goal 0 reached 0
1
b0
00
0
.
goal 1 reached 1
1
b1
00
1
0
.
goal 2 reached 2
1
b2
00
1
1
0
.
goal 3 unreachable 3 inv 0
proof 1
11 0 9 10 8 0
spents 0
refutes 0
end 3 1 0
";

pub const ARBITER: &[u8] = b"ketch 1
size 3 3 3
options 10 0 1000 100 4 1 20000 2 0 0
history 8
0 0 0 r zero 0
1 0 4 r zero 1
2 0 6 r sweep 2
3 0 5 r sweep 3
4 0 2 r sweep 4
5 0 1 r sweep 5
6 0 3 u proved 6
7 0 7 u proved 7
seeds 0
invs 1
inv 1
-1 -2 0
proof 1
17 0 15 16 5 6 11 12 4 10 0
goals 8
goal 0 reached 0
1
b0
000
000
.
goal 1 reached 5
1
b1
000
000
010
000
.
goal 2 reached 4
1
b2
000
000
001
000
.
goal 3 unreachable 6 inv 0
proof 1
18 0 15 16 14 0
goal 4 reached 1
1
b4
000
000
000
.
goal 5 reached 3
1
b5
000
010
000
.
goal 6 reached 2
1
b6
000
001
000
.
goal 7 unreachable 7 inv 0
proof 1
18 0 15 16 14 0
spents 0
refutes 0
end 6 2 0
";
