//! The style of the page.

/// The style of the page.
pub(crate) const STYLE: &str = r##"
:root {
  color-scheme: light dark;
  --back: #ffffff; --text: #1b1f24; --quiet: #59626d; --line: #d5dae0; --panel: #f6f7f9;
  --allow: #1f6fc4; --deny: #c2410c; --other: #7a5fc0; --good: #1a7f37; --bad: #b42318;
}
@media (prefers-color-scheme: dark) {
  :root {
    --back: #14171b; --text: #e6e9ed; --quiet: #9aa4b0; --line: #333a43; --panel: #1c2026;
    --allow: #6aaeff; --deny: #ff8f5a; --other: #b9a2f2; --good: #5cc777; --bad: #ff7b72;
  }
}
* { box-sizing: border-box; }
body {
  margin: 0 auto; max-width: 1200px; padding: 16px 20px 40px; background: var(--back); color: var(--text);
  font: 15px/1.45 system-ui, -apple-system, "Segoe UI", Roboto, "Helvetica Neue", Arial, sans-serif;
}
header { display: flex; flex-wrap: wrap; align-items: baseline; gap: 4px 16px; margin-bottom: 14px; }
h1 { font-size: 20px; margin: 0; }
h2 { font-size: 16px; margin: 0 0 8px; overflow-wrap: anywhere; }
section { margin-top: 26px; }
.quiet { color: var(--quiet); }
.good { color: var(--good); font-weight: 600; }
.bad { color: var(--bad); font-weight: 600; }
.names { overflow-wrap: anywhere; }
.notice { border: 1px solid var(--bad); color: var(--bad); padding: 8px 12px; border-radius: 4px; margin: 0 0 14px; }
.facts {
  display: grid; grid-template-columns: repeat(auto-fit, minmax(170px, 1fr)); gap: 1px; margin: 0;
  background: var(--line); border: 1px solid var(--line); border-radius: 4px; overflow: hidden;
}
.facts > div { background: var(--panel); padding: 9px 12px; min-width: 0; }
.facts dt { color: var(--quiet); font-size: 13px; }
.facts dd { margin: 0; font-size: 18px; font-variant-numeric: tabular-nums; overflow-wrap: anywhere; }
.facts dd.more { font-size: 13px; color: var(--quiet); }
table { border-collapse: collapse; width: 100%; }
th { text-align: left; font-weight: 500; color: var(--quiet); font-size: 13px; }
th, td { padding: 5px 12px 5px 0; border-bottom: 1px solid var(--line); vertical-align: top; overflow-wrap: anywhere; }
th.number, td.number {
  text-align: right; font-variant-numeric: tabular-nums; white-space: nowrap; padding: 5px 0 5px 12px; overflow-wrap: normal;
}
td.time { white-space: nowrap; font-variant-numeric: tabular-nums; }
@media (max-width: 600px) { td.time { white-space: normal; min-width: 6.6em; } }
.filters { display: grid; grid-template-columns: repeat(auto-fit, minmax(min(100%, 420px), 1fr)); gap: 26px 40px; }
.filters h2 + p { margin: 0 0 8px; font-variant-numeric: tabular-nums; }
.pairs { display: grid; grid-template-columns: max-content minmax(0, 1fr); gap: 4px 16px; margin: 0; }
.pairs dt { color: var(--quiet); }
.pairs dd { margin: 0; overflow-wrap: anywhere; font-variant-numeric: tabular-nums; white-space: pre-wrap; }
.legend { display: flex; flex-wrap: wrap; gap: 4px 20px; margin: 0 0 6px; font-variant-numeric: tabular-nums; }
.legend span::before {
  content: ""; display: inline-block; width: 14px; height: 3px; margin-right: 7px; vertical-align: middle; background: currentColor;
}
.legend b { font-weight: 600; color: var(--text); }
.allow { color: var(--allow); } .deny { color: var(--deny); } .other { color: var(--other); }
svg { display: block; width: 100%; height: 200px; }
svg path { fill: none; stroke: currentColor; stroke-width: 1.75; stroke-linejoin: round; vector-effect: non-scaling-stroke; }
svg line { stroke: var(--line); vector-effect: non-scaling-stroke; }
.axis {
  display: flex; justify-content: space-between; color: var(--quiet); font-size: 13px; font-variant-numeric: tabular-nums;
}
.columns { display: grid; grid-template-columns: repeat(auto-fit, minmax(min(100%, 420px), 1fr)); gap: 0 40px; }
"##;
