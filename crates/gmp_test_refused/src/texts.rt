//! The script, and what is written of it. What a command writes where nothing is refused was worked out once and stands here.

/// The second channel is made.
pub const SCRIPT: &str = "chan 1
body
make 2
send 1 7
exit
";

pub const TRACE: &str = "gmp-trace 1
limits procs 1 machines 1 bodies 1 channels 16 entries 16
caps 1
0 0.0 acquire -> proc 0
1 0.1 take -> ticket 0.1
2 0.2 claim 0.1 -> held
3 0.3 make 2 -> chan 1
4 0.4 send 1 7 -> sent
5 0.5 exit -> main ended
end main ended
";

/// The trace where the make was refused memory: it is no entry, and there is no channel 1.
pub const UNMADE: &str = "gmp-trace 1
limits procs 1 machines 1 bodies 1 channels 16 entries 16
caps 1
0 0.0 acquire -> proc 0
1 0.1 take -> ticket 0.1
2 0.2 claim 0.1 -> held
3 0.3 send 1 7 -> fault 3
4 0.4 exit -> main ended
end main ended
";

/// The summary of the trace.
pub const SUMMARY: &str = "outcome: main ended
entries: 6
machine 0: 6
acquire        1
take           1
claim          1
exit           1
make           1
send           1
";

/// What the trace tells.
pub const FACTS: &str = "outcome: main ended, after 6 entries
goroutine 0: ended at entry 5
channel 1: open, room 2, holds 1
channel 1: values 7
machine 0: 6 entries
machine 0: acquire 1, take 1, claim 1, exit 1, make 1, send 1
processor 0: 5 entries
processor 0: take 1, claim 1, exit 1, make 1, send 1
";

/// The trace from entry 4 on.
pub const PART: &str = "gmp-trace 2
limits procs 1 machines 1 bodies 1 channels 16 entries 16
start 4 now 0 arrivals 0 active 1
counts 4
procs 0
machines awake
spinning
marked
chan 0 1 open
chan 1 2 open
g 0 1 running 0
begin
4 0.4 send 1 7 -> sent
5 0.5 exit -> main ended
end main ended
";

/// The trace in two parts, at entry 4.
pub const PARTS: &str = "gmp-trace 1
limits procs 1 machines 1 bodies 1 channels 16 entries 16
caps 1
0 0.0 acquire -> proc 0
1 0.1 take -> ticket 0.1
2 0.2 claim 0.1 -> held
3 0.3 make 2 -> chan 1
end running
gmp-trace 2
limits procs 1 machines 1 bodies 1 channels 16 entries 16
start 4 now 0 arrivals 0 active 1
counts 4
procs 0
machines awake
spinning
marked
chan 0 1 open
chan 1 2 open
g 0 1 running 0
begin
4 0.4 send 1 7 -> sent
5 0.5 exit -> main ended
end main ended
";

/// How long the run in parts is.
pub const PARTS_TOLD: &str = "outcome: main ended
entries: 6
parts: 2
";

/// Main waits for good.
pub const STUCK: &str = "chan 0
body
recv 0
";

/// What `explore` tells of that script, and the trace.
pub const FOUND: &str = "deadlock after 0 steps: 1 states, 0 steps
goroutine 0 waits: recv 0
channel 0: open, room 0, holds 0
gmp-trace 1
limits procs 1 machines 1 bodies 1 channels 16 entries 25
caps 0
0 0.0 acquire -> proc 0
1 0.1 take -> ticket 0.1
2 0.2 claim 0.1 -> held
3 0.3 recv 0 -> waits
4 0.4 declare -> idle 0
5 0.5 bare -> done
6 0.6 park -> all asleep
end all asleep
";

/// The picture of entries 0 and 1 of the trace.
pub const PICTURE: &str =
    r##"<svg xmlns="http://www.w3.org/2000/svg" width="1280" height="168" viewBox="0 0 1280 168">
<style>
text{font:12px monospace;fill:#000}
.g{font-size:11px}
.p{font-size:11px;fill:#555}
.w{fill:#fff}
.o{paint-order:stroke;stroke:#fff;stroke-width:4px;stroke-linejoin:round}
.c0{fill:#e69f00}
.c1{fill:#56b4e9}
.c2{fill:#009e73}
.c3{fill:#f0e442}
.c4{fill:#d55e00}
.c5{fill:#cc79a7}
.c6{fill:#0072b2}
.c7{fill:#bbb}
.c0,.c1,.c2,.c3,.c4,.c5,.c6,.c7{stroke:#fff}
.e,.s{fill:#333}
.h{fill:url(#hatch)}
.b{fill:#fff}
.q{fill:none;pointer-events:all}
.i{fill:#999}
.r{fill:#eee}
.f{fill:#f4f4f4}
.l{fill:#9fb0c6}
.t{fill:#000}
.x{stroke:#000;stroke-width:2;fill:none}
.a{stroke:#333;fill:none;marker-end:url(#head)}
</style>
<defs>
<pattern id="hatch" width="7" height="7" patternUnits="userSpaceOnUse" patternTransform="rotate(45)"><rect width="3" height="7" fill="#fff"/></pattern>
<marker id="head" viewBox="0 0 6 6" refX="6" refY="3" markerWidth="6" markerHeight="6" orient="auto"><path d="M0 0L6 3L0 6z" fill="#333"/></marker>
</defs>
<rect class="b" x="0" y="0" width="1280" height="168"/>
<text class="k" x="12" y="22">entries 0 to 1 of 6; main ended</text>
<rect class="c3" x="12" y="34" width="60" height="18"/><text x="16" y="47">3 send</text><text class="g" x="78" y="47">goroutine 3 runs, its first call</text>
<rect class="c0" x="316" y="34" width="30" height="18"/><rect class="h" x="316" y="34" width="30" height="18"/><text class="g" x="352" y="47">blocking call</text>
<rect class="s" x="460" y="39" width="30" height="8"/><text class="g" x="496" y="47">spins</text>
<rect class="i" x="550" y="43" width="30" height="1"/><text class="g" x="586" y="47">awake; no line: parked</text>
<path class="a" d="M754 43L786 43"/><text class="g" x="794" y="47">made ready, claimed</text>
<rect class="f" x="940" y="34" width="30" height="18"/><rect class="l" x="940" y="43" width="30" height="9"/><text class="g" x="976" y="47">fill level</text>
<rect class="t" x="1064" y="34" width="2" height="18"/><text class="g" x="1072" y="47">value passed</text>
<path class="x" d="M1168 38L1178 48M1178 38L1168 48"/><text class="g" x="1184" y="47">closed</text>
<text class="p" x="111" y="74">0</text><rect class="r" x="108" y="64" width="1" height="96"/>
<text class="p" x="231" y="74">1</text><rect class="r" x="228" y="64" width="1" height="96"/>
<text class="n" x="12" y="127">machine 0</text>
<rect class="i" x="108" y="123" width="240" height="1"/>
</svg>
"##;
