// How a page looks, on a screen and on paper.
ghost use Rattle.std.specs.Prelude.{◌≡◌};
ghost use Rattle.cns_tables.specs.declared.style.TheConstants.{STYLE};

/// What stands before the title of a page.
pub const START: &str = "<!DOCTYPE html>
<html lang=en>
<meta charset=utf-8>
<meta name=viewport content=\"width=device-width, initial-scale=1\">
<title>";

/// The style of the page. Text has a contrast of 4.5 or more on its ground, in the light and in the dark scheme. The column of
/// issues stays in sight where a table is wider than the screen. No figure breaks: the columns of all accounts have the same
/// widths, but for an account with figures that need more.
pub const STYLE: &str = "<style>
:root { color-scheme: light dark; --ground: #fff; --ink: #1b1b1b; --quiet: #444; --link: #1a4b8f; --shade: #f2f2f2; \
--sum: #ececec; --rule: #d0d0d0; --alert: #8a1c1c; }
@media screen and (prefers-color-scheme: dark) {
:root { --ground: #16181b; --ink: #e8e8e8; --quiet: #b8b8b8; --link: #8ab4f8; --shade: #26292e; --sum: #2c3036; \
--rule: #44484e; --alert: #f28b82; }
}
* { box-sizing: border-box; }
body { margin: 0; background: var(--ground); color: var(--ink); font: 1rem/1.45 system-ui, -apple-system, \"Segoe UI\", \"Liberation \
Sans\", Arial, sans-serif; }
header, main, footer { max-width: 78rem; margin: 0 auto; padding: 0 1rem; }
.skip { position: absolute; left: -99rem; }
.skip:focus { left: 1rem; top: .5rem; padding: .5rem 1rem; background: var(--ground); border: 2px solid var(--link); }
h1 { font-size: 1.6rem; line-height: 1.2; margin: 1.25rem 0 .25rem; }
h2 { font-size: 1.15rem; margin: 2rem 0 .5rem; padding-bottom: .2rem; border-bottom: 2px solid var(--ink); }
p { margin: .4rem 0; max-width: 60rem; }
a { color: var(--link); }
nav ul { list-style: none; padding: 0; margin: .5rem 0 0; display: flex; flex-wrap: wrap; gap: .25rem 1.25rem; }
code, pre { font-family: ui-monospace, \"DejaVu Sans Mono\", Consolas, monospace; font-size: .9em; }
code { overflow-wrap: anywhere; unicode-bidi: isolate; background: var(--shade); padding: 0 .2em; }
pre { overflow-x: auto; background: var(--shade); padding: .6rem; }
pre code { background: none; padding: 0; }
[aria-labelledby=exceptions] td, [aria-labelledby=open] td { text-align: left; vertical-align: top; white-space: normal; \
min-width: 12rem; }
[aria-labelledby=exceptions] tbody th, [aria-labelledby=open] tbody th { vertical-align: top; padding-left: .5rem; \
border-left: 4px solid var(--alert); }
[aria-labelledby=exceptions] thead th, [aria-labelledby=open] thead th { text-align: left; }
[aria-labelledby=bookings] td:nth-child(3), [aria-labelledby=bookings] th:nth-child(3) { text-align: left; }
.wide { overflow-x: auto; }
.wide:focus-visible, a:focus-visible { outline: 3px solid var(--link); outline-offset: 2px; }
table { border-collapse: collapse; font-variant-numeric: tabular-nums; font-size: .92rem; }
caption { text-align: left; padding: .3rem 0; color: var(--quiet); }
th, td { text-align: right; padding: .15rem .6rem; border-bottom: 1px solid var(--rule); white-space: nowrap; }
thead th { vertical-align: bottom; white-space: normal; border-bottom: 2px solid var(--ink); }
th:first-child { text-align: left; padding-left: 0; }
th[scope=row], thead th:first-child { position: sticky; left: 0; background: var(--ground); }
tbody th { font-weight: 600; }
[aria-labelledby=accounts] .part { content-visibility: auto; contain-intrinsic-size: auto 12rem; width: min-content; \
min-width: max(100%, 76rem); }
[aria-labelledby=accounts] .part + .part thead { position: absolute; clip-path: inset(50%); }
[aria-labelledby=accounts] table { width: 100%; font-size: .8rem; }
[aria-labelledby=accounts] th + th, [aria-labelledby=accounts] td { padding: .15rem .35rem; }
[aria-labelledby=accounts] thead th:first-child, .name { width: 7.5%; }
[aria-labelledby=accounts] thead th:nth-child(n+2), .shares { width: 6.3%; }
[aria-labelledby=accounts] thead th:nth-child(n+4), .price { width: 5.4%; }
[aria-labelledby=accounts] thead th:nth-child(n+6), .amount { width: 7.7%; }
.sum > * { background: var(--sum); font-weight: 600; border-top: 1px solid var(--quiet); }
.sum th { padding-left: .3rem; text-align: left; }
.total > tr > * { font-weight: 700; border-top: 3px double var(--ink); }
footer { padding-bottom: 2rem; }
@page { size: A4; margin: 12mm 10mm; }
@media print {
body { font-size: 9pt; }
header, main, footer { max-width: none; padding: 0; }
nav, .skip { display: none; }
.wide { overflow: visible; }
table { font-size: 7pt; }
th, td { padding: .3mm 1mm; }
th[scope=row], thead th:first-child { position: static; }
[aria-labelledby=accounts] .part { content-visibility: visible; width: auto; min-width: 0; }
[aria-labelledby=accounts] .part + .part thead { position: static; clip-path: none; }
thead { display: table-header-group; }
tr { break-inside: avoid; }
h2 { break-after: avoid; }
.sum { break-after: avoid; }
}
</style>
";

/// The style of the page. What a caller shows of it need not look at its bytes.
pub fn page_style() -> &'static str
    ensures { result.now ≡ STYLE.now }
{
    STYLE
}
