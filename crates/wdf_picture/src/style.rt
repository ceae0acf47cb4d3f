//! The style of the page. It is written by `tools/view/embed.py` from `picture.css` beside that.

/// The text of it.
pub(crate) const STYLE: &str =
    r#":root { color-scheme: light dark; --ink: #1b1f24; --soft: #5c6670; --ground: #ffffff; --rule: #d5dae0; --panel: #f3f5f7; --l0: #bcd7f5; --l2: #f7c98b; --l3: #d9b8ee; --on: #bfe3c4; --off: #d9dde2; --d0: #fbf3c9; --asleep: #cfd8ee; --column: #eceff2; --red: #c21f30; --mark: #1b1f24; --queued: #f7e3a1; --owned: #a9cdf3; --sent: #e3c0ea; --returning: #f6c9a6; --done: #d3d8dd; }
@media (prefers-color-scheme: dark) { :root { --ink: #e8ebee; --soft: #a0aab4; --ground: #14181c; --rule: #333b43; --panel: #1e242a; --l0: #24527f; --l2: #7d4f0e; --l3: #5c3579; --on: #235b33; --off: #3a424a; --d0: #37340f; --asleep: #2d3a5e; --column: #20262c; --red: #ff6b74; --mark: #e8ebee; --queued: #675618; --owned: #24527f; --sent: #61356c; --returning: #743f18; --done: #3a424a; } }
* { box-sizing: border-box; }
body { margin: 0; padding: 12px; font: 14px/1.4 system-ui, sans-serif; color: var(--ink); background: var(--ground); }
h1 { font-size: 18px; margin: 0; }
h2 { font-size: 15px; margin: 12px 0 4px; }
header p { margin: 2px 0 8px; color: var(--soft); }
header p.last { font: 13px/1.5 ui-monospace, monospace; color: var(--red); }
svg text { font: 11px system-ui, sans-serif; fill: var(--ink); }
#run { display: flex; overflow: auto; max-height: 78vh; border: 1px solid var(--rule); background: var(--ground); }
#both { display: flex; gap: 8px; align-items: flex-start; }
#both #run { flex: 1 1 0; min-width: 0; }
#side { display: flex; flex-direction: column; flex: 0 0 36%; min-width: 0; max-height: 78vh; border: 1px solid var(--rule); background: var(--panel); }
#side h2 { flex: none; margin: 0; padding: 3px 8px; border-bottom: 1px solid var(--rule); }
#story { flex: none; max-height: 38vh; overflow: auto; padding: 3px 0; border-bottom: 1px solid var(--rule); }
#story div { padding: 1px 8px; font: 13px/1.45 system-ui, sans-serif; white-space: pre-wrap; overflow-wrap: anywhere; }
#story .event { font: 12px/1.45 ui-monospace, monospace; cursor: pointer; }
#story .event:hover, #script div:hover { background: var(--rule); }
#script { position: relative; flex: 1 1 auto; min-height: 12em; max-height: none; margin: 0; overflow: auto; }
#script div { min-width: max-content; min-height: 1.45em; padding-right: 8px; cursor: pointer; }
#script div::before { content: attr(data-n); display: inline-block; width: 3.5em; margin-right: 1em; text-align: right; color: var(--soft); }
#script .chosen { background: color-mix(in srgb, var(--red) 28%, transparent); }
@media (max-width: 900px) { #both { flex-direction: column; align-items: stretch; } #both #run, #side { flex: none; } }
#names { position: sticky; left: 0; flex: none; z-index: 1; background: var(--panel); }
#plot { flex: none; touch-action: pan-x pan-y; }
#names, #plot { user-select: none; -webkit-user-select: none; }
#names text { font-weight: 600; }
.number { fill: var(--soft) !important; }
.rule { stroke: var(--rule); }
.s > rect { stroke: var(--ground); stroke-width: 1; fill: var(--done); }
.m { fill: var(--soft); }
.L0 > rect, .m.L0 { fill: var(--l0); }
.L2 > rect, .m.L2 { fill: var(--l2); }
.L3 > rect, .m.L3 { fill: var(--l3); }
.b > rect { stroke: var(--mark); stroke-width: 1.4; }
.wait > rect { fill: url(#hatch); stroke: none; }
.stripe { fill: var(--mark); opacity: .45; }
.park > rect { fill: none; stroke: var(--mark); stroke-width: 1.5; stroke-dasharray: 5 3; }
.call > rect, .m.call { fill: var(--mark); opacity: .35; stroke: none; }
.column > rect { fill: var(--column); stroke: none; }
.time > rect { fill: var(--panel); stroke: var(--rule); }
.on > rect, .m.on { fill: var(--on); }
.asleep > rect, .m.asleep { fill: var(--asleep); }
.off > rect { fill: var(--off); stroke-dasharray: 3 2; stroke: var(--soft); }
.d0 > rect { fill: var(--d0); stroke: var(--rule); }
.m.d0 { display: none; }
.up > rect, .m.up { fill: var(--on); }
.down > rect { fill: var(--ground); stroke: var(--soft); }
.drained > rect { fill: var(--ground); stroke: var(--soft); stroke-dasharray: 6 2; }
.stage > rect { fill: var(--ground); stroke: var(--mark); stroke-width: 1.4; }
.inq > rect, .m.inq, .queued > rect, .m.queued { fill: var(--queued); }
.fromq > rect, .m.fromq, .owned > rect, .m.owned { fill: var(--owned); }
.sent > rect, .m.sent { fill: var(--sent); }
.returning > rect { fill: var(--returning); stroke: var(--mark); stroke-dasharray: 2 2; }
.cancel > rect { fill: none; stroke: var(--red); stroke-width: 2.5; }
.cancel > text { fill: var(--red); font-weight: 700; }
.fault > rect { fill: var(--red); fill-opacity: .22; stroke: var(--red); stroke-width: 2; }
.fault { overflow: visible; }
.fault > text { font-weight: 700; fill: var(--red); text-anchor: end; }
.s { cursor: pointer; }
.s:hover > rect { stroke: var(--mark); stroke-width: 2; }
.dim { opacity: .16; }
.here { fill: var(--red); opacity: .25; pointer-events: none; }
.w rect { fill: var(--panel); stroke: var(--soft); }
.w.circle rect { stroke: var(--red); stroke-width: 2.5; }
.w text { font: 12px ui-monospace, monospace; }
.arrow { fill: none; stroke: var(--soft); stroke-width: 1.6; }
.arrow.circle { stroke: var(--red); stroke-width: 2.6; }
#tip path { fill: var(--soft); }
#red path { fill: var(--red); }
#stuck { overflow-x: auto; }
#tools { display: flex; flex-wrap: wrap; gap: 6px; margin: 6px 0; align-items: center; }
#tools[hidden] { display: none; }
button, input { font: inherit; color: var(--ink); background: var(--panel); border: 1px solid var(--soft); border-radius: 4px; padding: 3px 9px; }
#line { min-height: 1.9em; margin: 6px 0; padding: 3px 8px; background: var(--panel); font: 13px/1.5 ui-monospace, monospace; overflow-wrap: anywhere; position: sticky; bottom: 0; z-index: 2; }
#line:empty { visibility: hidden; }
.legend { margin: 4px 0; display: flex; flex-wrap: wrap; gap: 6px; align-items: center; }
.legend b { font-size: 12px; font-weight: 600; }
.k { padding: 1px 8px; border: 1px solid var(--soft); font-size: 12px; }
.k.L0 { background: var(--l0); } .k.L2 { background: var(--l2); } .k.L3 { background: var(--l3); }
.k.wait { padding-left: 24px; background: repeating-linear-gradient(45deg, transparent 0 4px, var(--soft) 4px 6px) left / 18px 100% no-repeat; }
.k.park { border-style: dashed; } .k.call { border-bottom-width: 4px; }
.k.d0 { background: var(--d0); } .k.stage { border: 2px solid var(--mark); } .k.up { background: var(--on); }
.k.queued, .k.inq { background: var(--queued); } .k.owned, .k.fromq { background: var(--owned); } .k.sent { background: var(--sent); }
.k.returning { background: var(--returning); border-style: dotted; } .k.done { background: var(--done); }
.k.cancel { border: 2px solid var(--red); } .k.fault { background: color-mix(in srgb, var(--red) 25%, transparent); border-color: var(--red); }
pre { font: 12px/1.45 ui-monospace, monospace; overflow: auto; max-height: 60vh; }
@media print { #run, #stuck, #side, #story, #script { overflow: visible; max-height: none; } #tools, #line, details { display: none; } #names { position: static; } body { padding: 0; } * { print-color-adjust: exact; -webkit-print-color-adjust: exact; } }
"#;
