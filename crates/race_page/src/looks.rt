//! The fixed parts of a page: how it looks, in light, in dark and on paper, and what its words mean.

/// What stands in front of the style. By the policy a browser runs no script and loads nothing from outside.
pub const HEAD: &str = "<!DOCTYPE html>\n\
<html lang=\"en\">\n\
<head>\n\
<meta charset=\"utf-8\">\n\
<meta name=\"viewport\" content=\"width=device-width, initial-scale=1\">\n\
<meta http-equiv=\"Content-Security-Policy\" content=\"default-src 'none'; style-src 'unsafe-inline'\">\n\
<title>Data races</title>\n";

/// How the page looks.
pub const LOOKS: &str = ":root{color-scheme:light dark;\n\
--page:#fff;--ink:#1c1c1c;--dim:#595959;--rule:#cfcfcf;--link:#0b4f9e;--code:#f6f6f6;\n\
--missed:#8c0015;--missed-back:#fbe0e3;--reported:#7a3d00;--reported-back:#fcebd3;--race:#692489;--race-back:#f2e4f8;\n\
--open:#4a4a00;--open-back:#f3f3c8;--free:#0a5a2a;--free-back:#dff3e5;--apart:#33415a;--apart-back:#e6eaf1}\n\
@media screen and (prefers-color-scheme:dark){\n\
:root{--page:#111;--ink:#e6e6e6;--dim:#a6a6a6;--rule:#444;--link:#8bbcf5;--code:#1c1c1c;\n\
--missed:#ffb0b8;--missed-back:#551420;--reported:#ffcf94;--reported-back:#4a2d06;--race:#e3befc;--race-back:#41204f;\n\
--open:#e9e58c;--open-back:#3c3a0d;--free:#a0e6b8;--free-back:#10381f;--apart:#c2cfe6;--apart-back:#272f3f}\n\
}\n\
*{box-sizing:border-box}\n\
body{margin:0 auto;padding:1rem;max-width:70rem;background:var(--page);color:var(--ink)}\n\
body{font:1rem/1.45 system-ui,sans-serif}\n\
h1{margin:0 0 .5rem;font-size:1.5rem}\n\
h2{margin:2.5rem 0 .5rem;padding-top:.75rem;border-top:2px solid var(--rule);font-size:1.2rem;overflow-wrap:anywhere}\n\
h3{margin:0 0 .4rem;font-size:1rem}\n\
p{margin:.3rem 0}\n\
a{color:var(--link)}\n\
nav{float:right;margin-left:1rem}\n\
code,ol{font-family:ui-monospace,monospace;font-size:.85rem}\n\
code{overflow-wrap:anywhere}\n\
h3 code{font-size:1rem}\n\
.small,footer{color:var(--dim);font-size:.9rem}\n\
.wide,figure{overflow-x:auto}\n\
table{border-collapse:collapse}\n\
td,th{padding:.2rem .6rem .2rem 0;text-align:left;vertical-align:baseline;font-weight:normal}\n\
.files{width:100%}\n\
.files td,.files th{border-bottom:1px solid var(--rule)}\n\
.files thead th{font-weight:bold}\n\
.files thead th,.files td+td{text-align:right;font-variant-numeric:tabular-nums}\n\
.files thead th:nth-child(-n+2),.files td[colspan]{text-align:left}\n\
.files tbody th{min-width:9rem;overflow-wrap:anywhere}\n\
b,mark,small{--own:var(--apart);--back:var(--apart-back)}\n\
.missed{--own:var(--missed);--back:var(--missed-back)}\n\
.reported{--own:var(--reported);--back:var(--reported-back)}\n\
.race{--own:var(--race);--back:var(--race-back)}\n\
.not-settled,.stopped,.refused{--own:var(--open);--back:var(--open-back)}\n\
.no-race,.free{--own:var(--free);--back:var(--free-back)}\n\
b,mark{color:var(--own);background:var(--back)}\n\
b{padding:.05em .45em;border:1px solid;border-radius:.25em;white-space:nowrap}\n\
mark{border-bottom:2px solid}\n\
small{margin-left:.4em;color:var(--own);font-size:.75rem;white-space:nowrap}\n\
ol{margin:.6rem 0 1rem;padding:.5rem .5rem .5rem 3.2em;border:1px solid var(--rule);background:var(--code)}\n\
li{white-space:pre-wrap;overflow-wrap:anywhere;tab-size:4}\n\
li::marker{color:var(--dim)}\n\
li:has(:target){background:var(--rule)}\n\
article{margin:.8rem 0;padding:.6rem .8rem;border:1px solid var(--rule)}\n\
figure{margin:.5rem 0 0}\n\
footer{margin-top:2.5rem;padding-top:.75rem;border-top:2px solid var(--rule)}\n\
dl{display:grid;grid-template-columns:max-content 1fr;gap:.25rem .75rem}\n\
dd{margin:0}\n\
@media (max-width:45rem){\n\
body{padding:.6rem}\n\
.files{font-size:.8rem}\n\
.files td,.files th{padding-right:.35rem}\n\
figure svg{font-size:13px}\n\
figure tspan{font-size:.7em}\n\
}\n\
@media print{\n\
body{max-width:none;padding:0 1px;font-size:10pt}\n\
nav{display:none}\n\
a{color:inherit;text-decoration:none}\n\
h2,h3{break-after:avoid}\n\
tr,li,article{break-inside:avoid}\n\
.wide,figure{overflow:visible}\n\
figure svg{font-size:11px}\n\
figure tspan{font-size:.7em}\n\
}\n";

/// The heads of the columns of the table of files.
pub const TABLE_HEAD: &str = "<thead>\n\
<tr>\n\
<th scope=\"col\">File</th>\n\
<th scope=\"col\">Verdict</th>\n\
<th scope=\"col\">reported</th>\n\
<th scope=\"col\">missed</th>\n\
<th scope=\"col\">race</th>\n\
<th scope=\"col\">no race</th>\n\
<th scope=\"col\">apart</th>\n\
<th scope=\"col\">not settled</th>\n\
</tr>\n\
</thead>\n";

/// What the words for verdicts and reasons mean.
pub const LEGEND: &str = "<dl>\n\
<dt><b class=\"reported\">reported</b></dt>\n\
<dd>The two race, and some execution has a report of KCSAN that names both.</dd>\n\
<dt><b class=\"missed\">missed</b></dt>\n\
<dd>The two race, and no execution has a report that names both. Why: <i>same value</i>, the write stores\n\
what is there already; <i>masked</i>, no bit of the mask changes; <i>origin</i>, a report of unknown origin\n\
names one of the two; <i>never taken</i>, a watchpoint of the one is never found by the other;\n\
<i>never armed</i>, none is set up for either.</dd>\n\
<dt><b class=\"race\">race</b></dt>\n\
<dd>The two race, and the search was stopped before a report was found.</dd>\n\
<dt><b class=\"no-race\">no race</b></dt>\n\
<dd>The two are in progress at one moment of some execution, and race in none. Why: <i>both marked</i>;\n\
<i>silenced</i>, one of them is; <i>other bits</i>, the one changes no bit of the mask of the other.</dd>\n\
<dt><b class=\"apart\">apart</b></dt>\n\
<dd>The two are never in progress at one moment.</dd>\n\
<dt><b class=\"not-settled\">not settled</b></dt>\n\
<dd>The search was stopped before this was known.</dd>\n\
</dl>\n";
