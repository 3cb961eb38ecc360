// The style of a page.

/// The style, with what stands around it: from the end of the title to the class of the verdict.
#[rattlefmt::skip]
pub const STYLE: &str = "\
</title>\n<style>\n\
:root{--bg:#fff;--fg:#1b1f24;--dim:#57606a;--line:#d0d7de;\n\
--card:#f6f8fa;\n\
--ok:#1a7f37;--bad:#cf222e;--no:#8a5d00;--badbg:#ffebe9;\n\
--s:#2da44e;--u:#d4a72c;--k:#afb8c1;--h:#0969da;--m:#ffb8b0}\n\
@media(prefers-color-scheme:dark){:root{--bg:#0d1117;--fg:#e6edf3;\n\
--dim:#8d96a0;\n\
--line:#30363d;--card:#161b22;--ok:#3fb950;--bad:#f85149;--no:#d29922;\n\
--badbg:#3c1618;\n\
--s:#2ea043;--u:#bb8009;--k:#484f58;--h:#388bfd;--m:#8e3a34}\n\
header .verdict{color:#0d1117}}\n\
*{box-sizing:border-box}\n\
body{margin:0;background:var(--bg);color:var(--fg);\n\
font:15px/1.5 system-ui,sans-serif}\n\
main{max-width:1080px;margin:0 auto;padding:24px 20px 64px}\n\
a{color:inherit}\n\
h1{font-size:26px;line-height:1.2;margin:0;overflow-wrap:anywhere}\n\
h2{font-size:18px;margin:36px 0 10px}\n\
h3{font-size:15px;margin:0 0 4px;overflow-wrap:anywhere}\n\
p{margin:0}\n\
header{display:flex;flex-wrap:wrap;gap:12px 18px;align-items:center;\n\
padding-bottom:18px;border-bottom:1px solid var(--line)}\n\
header div{flex:1 1 240px;min-width:0}\n\
header p{color:var(--dim);overflow-wrap:anywhere}\n\
header .verdict{color:#fff;font-weight:700;font-size:20px;\n\
letter-spacing:.04em;\n\
padding:10px 18px;border-radius:8px}\n\
.verdict.ok{background:var(--ok)}\n\
.verdict.bad{background:var(--bad)}\n\
.verdict.no{background:var(--no)}\n\
.tiles{display:flex;flex-wrap:wrap;gap:10px;margin-top:18px}\n\
.tiles div{background:var(--card);border:1px solid var(--line);\n\
border-radius:8px;\n\
padding:8px 14px;min-width:92px}\n\
.tiles strong{display:block;font-size:22px;line-height:1.2}\n\
.tiles span{color:var(--dim);font-size:13px}\n\
.ok strong,b.ok{color:var(--ok)}\n\
.bad strong,b.bad{color:var(--bad)}\n\
.no strong,b.no{color:var(--no)}\n\
table{border-collapse:collapse;width:100%;font-size:14px}\n\
th,td{text-align:left;vertical-align:top;padding:5px 10px 5px 0;\n\
border-bottom:1px solid var(--line)}\n\
th{color:var(--dim);font-weight:600;font-size:13px;white-space:nowrap}\n\
.n{text-align:right;font-variant-numeric:tabular-nums;\n\
white-space:nowrap}\n\
code,.key{font-family:ui-monospace,Menlo,Consolas,monospace;\n\
font-size:13px}\n\
.key{white-space:pre-wrap;overflow-wrap:anywhere}\n\
code.bad{color:var(--bad);font-weight:700}\n\
.wide{overflow-x:auto}\n\
.fail{border:1px solid var(--line);border-left:4px solid var(--bad);\n\
border-radius:6px;padding:10px 14px;margin:10px 0}\n\
.fail table{margin-top:8px}\n\
.fail .key{min-width:9em}\n\
.fail tr:last-child td{border-bottom:0}\n\
.fail details{border:0;margin-top:6px}\n\
.share{width:20%;min-width:110px}\n\
.off td{color:var(--dim)}\n\
.bar{display:flex;height:12px;margin-top:5px;border-radius:3px;\n\
overflow:hidden;\n\
background:var(--card)}\n\
.bar i{flex:0 1 0}\n\
.s{background:var(--s)}\n\
i.u{background:var(--u)}\n\
i.k{background:var(--k)}\n\
.h{background:var(--h)}\n\
.m{background:var(--m)}\n\
.legend{color:var(--dim);font-size:13px;margin-bottom:8px}\n\
.legend i{display:inline-block;width:12px;height:12px;\n\
border-radius:3px;\n\
margin-left:10px;vertical-align:-1px}\n\
details{border-bottom:1px solid var(--line);padding:6px 0}\n\
summary{cursor:pointer;overflow-wrap:anywhere}\n\
small{color:var(--dim);font-size:13px}\n\
.points{margin:6px 0 10px}\n\
.points td:first-child,.points td:nth-child(2){white-space:nowrap;\n\
padding-right:16px}\n\
.points td:nth-child(2){color:var(--dim)}\n\
.points .key{width:100%}\n\
tr.bad td{background:var(--badbg)}\n\
tr.u td:first-child{color:var(--no)}\n\
tr.k td{color:var(--dim)}\n\
@media(max-width:480px){main{padding:16px 12px 40px}.points td{\n\
padding-right:8px}}\n\
@media print{main{max-width:none;padding:0}body{font-size:11px}\n\
*{print-color-adjust:exact;-webkit-print-color-adjust:exact}\n\
.wide{overflow:visible}article,tr{break-inside:avoid}}\n\
</style>\n</head>\n<body>\n<main>\n<header>\n<p class=\"verdict ";
