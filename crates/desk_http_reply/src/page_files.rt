// The files of the page, as they stand in `page/`: `bench/page.py carry` writes this file.

/// `page.html`
pub const PAGE_HTML: &[u8] = b"<!DOCTYPE html>
<html lang=\"en\">
<head>
<meta charset=\"utf-8\">
<meta name=\"viewport\" content=\"width=device-width, initial-scale=1\">
<meta name=\"color-scheme\" content=\"light dark\">
<meta http-equiv=\"Content-Security-Policy\" content=\"default-src 'self'; img-src data:\">
<title>signoff desk</title>
<link rel=\"icon\" href=\"data:,\">
<link rel=\"stylesheet\" href=\"page.css\">
<script src=\"page.js\" defer></script>
</head>
<body>
<a class=\"skip\" href=\"#main\">Skip to the block</a>
<header>
  <h1>signoff <span>desk</span></h1>
  <p id=\"news\" role=\"status\"></p>
</header>
<div id=\"gone\" role=\"alert\" hidden>
  <p>The desk doesn't answer: it was stopped, or has served its connections. Your texts are kept in this browser.</p>
  <button type=\"button\" id=\"again\">Try again</button>
</div>
<div class=\"desk\">
<nav aria-labelledby=\"blocks-title\">
  <h2 id=\"blocks-title\">Blocks</h2>
  <ul id=\"blocks\"></ul>
  <p id=\"no-blocks\" class=\"quiet\" hidden>None yet.</p>
  <form id=\"add\">
    <label for=\"add-name\">New block</label>
    <div class=\"row\">
      <input id=\"add-name\" required maxlength=\"64\" pattern=\"[A-Za-z0-9_.\\-]+\" autocomplete=\"off\" spellcheck=\"false\"
        title=\"letters, digits, _, - and .\" placeholder=\"name\">
      <button>Add</button>
    </div>
  </form>
</nav>
<main id=\"main\" tabindex=\"-1\">
  <section id=\"hello\" aria-labelledby=\"hello-title\">
    <h2 id=\"hello-title\">Choose a block, or add one</h2>
    <ol>
      <li>Give it its two texts: the Verilog module, and the set of properties.</li>
      <li>Check it. Each line of the report is proved, refuted or spent; a refuted one shows its waveform.</li>
      <li>When all lines are proved, sign it off. The pair of texts gets a number that stays.</li>
    </ol>
  </section>

  <section id=\"block\" aria-labelledby=\"block-title\" hidden>
    <div class=\"head\">
      <h2 id=\"block-title\" tabindex=\"-1\"></h2>
      <span id=\"block-state\" class=\"state\"></span>
      <div class=\"actions\">
        <button type=\"button\" id=\"forget\" hidden>Forget the draft</button>
        <button type=\"button\" id=\"check\" class=\"first\">Check</button>
        <button type=\"button\" id=\"sign\">Sign off</button>
      </div>
    </div>
    <div id=\"working\" class=\"row\" hidden>
      <progress aria-label=\"The check is running\"></progress><span id=\"elapsed\"></span>
    </div>
    <p id=\"fault\" class=\"fault\" role=\"alert\"></p>

    <details id=\"texts\" open>
      <summary><h3>Texts</h3><span id=\"texts-note\" class=\"quiet\"></span></summary>
      <div class=\"pair\">
        <div class=\"text\" data-part=\"module\">
          <div class=\"bar\">
            <label for=\"module\">Module, in Verilog</label><span class=\"note quiet\"></span>
            <label class=\"file\">From a file<input type=\"file\" accept=\".v,.sv,text/plain\" aria-label=\"Module from a file\"></label>
            <button type=\"button\" class=\"put\">Put</button>
          </div>
          <textarea id=\"module\" rows=\"16\" wrap=\"off\" spellcheck=\"false\" autocapitalize=\"off\" autocomplete=\"off\"
            aria-describedby=\"module-fault\"></textarea>
          <p id=\"module-fault\" class=\"fault\" role=\"alert\"></p>
        </div>
        <div class=\"text\" data-part=\"set\">
          <div class=\"bar\">
            <label for=\"set\">Set of properties</label><span class=\"note quiet\"></span>
            <label class=\"file\">From a file<input type=\"file\" accept=\".set,text/plain\" aria-label=\"Set from a file\"></label>
            <button type=\"button\" class=\"put\">Put</button>
          </div>
          <textarea id=\"set\" rows=\"16\" wrap=\"off\" spellcheck=\"false\" autocapitalize=\"off\" autocomplete=\"off\"
            aria-describedby=\"set-fault\"></textarea>
          <p id=\"set-fault\" class=\"fault\" role=\"alert\"></p>
        </div>
      </div>
      <p class=\"quiet\">The desk doesn't hand texts back: these are the ones that this browser keeps.</p>
    </details>

    <section id=\"report\" aria-labelledby=\"report-title\" hidden>
      <h3 id=\"report-title\" tabindex=\"-1\">Report</h3>
      <div id=\"meter\" class=\"meter\" role=\"img\"></div>
      <div id=\"report-body\"></div>
      <details><summary>As text</summary><pre id=\"report-text\" tabindex=\"0\"></pre></details>
    </section>

    <section id=\"trace\" aria-labelledby=\"trace-title\" hidden>
      <div class=\"head\">
        <h3 id=\"trace-title\" tabindex=\"-1\"></h3>
        <label class=\"base\">Values
          <select id=\"base\"><option value=\"10\">decimal</option><option value=\"16\">hexadecimal</option></select>
        </label>
        <button type=\"button\" id=\"trace-close\">Close</button>
      </div>
      <p id=\"trace-note\" class=\"quiet\"></p>
      <div id=\"trace-body\"></div>
      <details><summary>As text</summary><pre id=\"trace-text\" tabindex=\"0\"></pre></details>
    </section>

    <section id=\"graph\" aria-labelledby=\"graph-title\" hidden>
      <h3 id=\"graph-title\">Operations</h3>
      <div id=\"graph-body\"></div>
      <p class=\"quiet\">Where an arrow leads, that operation may follow. Point at an operation, or go there by Tab.</p>
    </section>
  </section>

  <section aria-labelledby=\"signs-title\">
    <h2 id=\"signs-title\">Sign-offs</h2>
    <p id=\"no-signs\" class=\"quiet\" hidden>None yet.</p>
    <ol id=\"signs\"></ol>
  </section>
</main>
</div>
</body>
</html>
";

/// `page.css`
pub const PAGE_CSS: &[u8] = b":root {
  color-scheme: light dark;
  --paper: #fbfbf9; --card: #ffffff; --ink: #1d2126; --quiet: #5a636e; --line: #d9dcd6; --accent: #1f5fa8;
  --proved: #1c7a43; --refuted: #b3261e; --spent: #8a5a00; --wash: #eef1f4;
  --proved-wash: #e4f3e9; --refuted-wash: #fbe6e4; --spent-wash: #fbf0d9; --mark: #ffd9d4;
  --mono: ui-monospace, \"SF Mono\", Menlo, Consolas, \"DejaVu Sans Mono\", monospace;
}
@media (prefers-color-scheme: dark) {
  :root {
    --paper: #14171b; --card: #1b1f25; --ink: #e6e8ea; --quiet: #9aa4af; --line: #333a43; --accent: #7ab7ff;
    --proved: #6fd695; --refuted: #ff8f85; --spent: #f0b95b; --wash: #242a32;
    --proved-wash: #17301f; --refuted-wash: #3a1d1b; --spent-wash: #362a12; --mark: #5c2622;
  }
}
* { box-sizing: border-box; }
[hidden] { display: none !important; }
html { background: var(--paper); color: var(--ink); font: 15px/1.5 system-ui, -apple-system, \"Segoe UI\", \"DejaVu Sans\", sans-serif; }
body { margin: 0; }
h1, h2, h3, h4, p, ul, ol { margin: 0; padding: 0; }
h1 { font-size: 1.15rem; }
h1 span { font-weight: 400; color: var(--quiet); }
h2 { font-size: 1.05rem; }
h3 { font-size: 1rem; }
h4 { font-size: .85rem; color: var(--quiet); font-weight: 600; margin: 1.1rem 0 .4rem; }
:focus-visible { outline: 2px solid var(--accent); outline-offset: 2px; }
h2:focus, h3:focus, main:focus { outline: none; }
.quiet { color: var(--quiet); font-size: .85rem; }
.said { position: absolute; width: 1px; height: 1px; overflow: hidden; clip-path: inset(50%); white-space: nowrap; }
.skip { position: absolute; left: -99rem; }
.skip:focus { left: 1rem; top: .5rem; background: var(--card); padding: .3rem .8rem; z-index: 2; }

header {
  display: flex; gap: 1.5rem; align-items: baseline; padding: .8rem 1.5rem; border-bottom: 1px solid var(--line);
  background: var(--card);
}
header p { color: var(--quiet); font-size: .9rem; min-height: 1.4em; }
#gone { display: flex; gap: 1rem; align-items: center; padding: .6rem 1.5rem; background: var(--refuted-wash); color: var(--refuted); }
.desk { display: grid; grid-template-columns: 15rem minmax(0, 1fr); }
nav { padding: 1.3rem 1rem 1.3rem 1.5rem; border-right: 1px solid var(--line); min-height: calc(100vh - 3.4rem); }
main { padding: 1.3rem 1.5rem 3rem; display: grid; gap: 1.2rem; align-content: start; min-width: 0; max-width: 84rem; }
main > section, #block { display: grid; gap: 1rem; min-width: 0; }
#hello, #block > details, #block > section, main > section:last-child {
  background: var(--card); border: 1px solid var(--line); border-radius: 8px; padding: 1rem 1.2rem; min-width: 0;
}
#hello ol { padding-left: 1.2rem; color: var(--quiet); }

button, .file, select, input, textarea { font: inherit; color: inherit; }
button, .file, select {
  background: var(--card); border: 1px solid var(--line); border-radius: 6px; padding: .25rem .8rem; cursor: pointer; white-space: nowrap;
}
button:hover:enabled, .file:hover { border-color: var(--accent); }
button:disabled { color: var(--quiet); cursor: default; }
button.first:enabled { background: var(--accent); border-color: var(--accent); color: var(--card); font-weight: 600; }
.file { position: relative; display: inline-block; }
.file input { position: absolute; inset: 0; opacity: 0; cursor: pointer; width: 100%; }
.file:focus-within { outline: 2px solid var(--accent); outline-offset: 2px; }
input:not([type=file]) { background: var(--card); border: 1px solid var(--line); border-radius: 6px; padding: .25rem .6rem; min-width: 0; width: 100%; }
.row { display: flex; gap: .6rem; align-items: center; }
progress { flex: 1; max-width: 24rem; accent-color: var(--accent); }

#blocks { list-style: none; margin: .5rem -.6rem .3rem; }
#blocks button {
  width: 100%; border: 0; background: none; display: flex; justify-content: space-between; gap: .6rem; align-items: baseline;
  padding: .35rem .6rem; text-align: left; white-space: normal; overflow-wrap: anywhere;
}
#blocks button:hover { background: var(--wash); }
#blocks button[aria-current=true] { background: var(--wash); font-weight: 600; }
#add { margin-top: 1rem; display: grid; gap: .3rem; }
#add label { font-size: .85rem; color: var(--quiet); }
.state {
  font-size: .78rem; font-weight: 600; border-radius: 99px; padding: .05rem .55rem; background: var(--wash); color: var(--quiet);
  white-space: nowrap;
}
.state.proved { background: var(--proved-wash); color: var(--proved); }
.state.refuted, .open .refuted { background: var(--refuted-wash); color: var(--refuted); }
.state.spent, .open .spent { background: var(--spent-wash); color: var(--spent); }

.head { display: flex; flex-wrap: wrap; gap: .5rem .8rem; align-items: center; }
.head h2 { font-size: 1.35rem; overflow-wrap: anywhere; }
.head .actions, .head .base { margin-left: auto; display: flex; gap: .5rem; align-items: center; }
.base { font-size: .85rem; color: var(--quiet); }
.fault { color: var(--refuted); font-family: var(--mono); font-size: .85rem; overflow-wrap: anywhere; }
.fault:empty { display: none; }
.fault button { font-family: system-ui, sans-serif; margin-left: .8rem; padding: 0 .6rem; }
summary { cursor: pointer; }
summary h3 { display: inline; margin-right: .8rem; }
.pair { display: grid; grid-template-columns: minmax(0, 1fr) minmax(0, 1fr); gap: 1rem; margin: .8rem 0 .4rem; }
.text { display: grid; gap: .4rem; min-width: 0; align-content: start; }
.bar { display: flex; flex-wrap: wrap; gap: .4rem .6rem; align-items: center; }
.bar label:first-child { font-weight: 600; font-size: .9rem; }
.bar .note { margin-right: auto; }
textarea {
  width: 100%; font: 13px/1.5 var(--mono); tab-size: 4; background: var(--paper); border: 1px solid var(--line); border-radius: 6px;
  padding: .6rem .7rem; resize: vertical;
}
textarea[aria-invalid=true] { border-color: var(--refuted); }
pre {
  font: 13px/1.5 var(--mono); background: var(--paper); border: 1px solid var(--line); border-radius: 6px; padding: .6rem .7rem;
  overflow: auto; max-height: 26rem; margin: .5rem 0;
}
details > summary:not(:has(h3)) { color: var(--quiet); font-size: .85rem; margin-top: .9rem; }

.meter { display: flex; height: .5rem; border-radius: 99px; overflow: hidden; gap: 2px; margin: .2rem 0; }
.meter span { min-width: 4px; }
.meter .proved { background: var(--proved); } .meter .refuted { background: var(--refuted); } .meter .spent { background: var(--spent); }
.open { display: flex; flex-wrap: wrap; gap: .4rem; list-style: none; margin-top: .6rem; }
.open button, .open span { font: 13px/1.5 var(--mono); border-radius: 6px; padding: .15rem .7rem; border: 1px solid currentColor; display: inline-block; }
.open .refuted[aria-pressed=true] { background: var(--refuted); color: var(--card); }
.groups { display: flex; flex-wrap: wrap; gap: 0 3rem; }
.group { min-width: min(14rem, 100%); max-width: 100%; }
.group h4 { color: var(--ink); margin-bottom: 0; }
.group p { width: 0; min-width: 100%; }
.wide { overflow-x: auto; }
table { border-collapse: collapse; font-size: .88rem; }
th, td { padding: .22rem .7rem; border-bottom: 1px solid var(--line); text-align: center; white-space: nowrap; }
thead th { font-weight: 500; color: var(--quiet); font-size: .82rem; vertical-align: bottom; }
tbody th { font: 13px/1.5 var(--mono); text-align: left; position: sticky; left: 0; background: var(--card); padding-left: 0; }
.mark {
  position: relative; display: inline-block; min-width: 1.6em; margin: 0 1px; padding: 0 .15em; border-radius: 4px; border: 0;
  background: none; line-height: 1.5;
}
.mark.proved { color: var(--proved); }
.mark.spent { color: var(--spent); background: var(--spent-wash); font-weight: 700; }
.mark.refuted { color: var(--card); background: var(--refuted); font-weight: 700; }
.mark.refuted[aria-pressed=true] { outline: 2px solid var(--refuted); outline-offset: 2px; }

.window { margin-top: .8rem; }
.waves { display: flex; }
.waves > svg { flex: none; }
.scroll { overflow-x: auto; flex: 1; min-width: 0; }
svg text { font: 12px var(--mono); fill: var(--ink); }
svg .dim { fill: var(--quiet); }
svg .name-differs { fill: var(--refuted); font-weight: 700; }
svg .grid { stroke: var(--line); stroke-width: 1; }
svg .reset { fill: var(--wash); }
svg .differs { fill: var(--mark); }
svg .wave { fill: none; stroke: var(--accent); stroke-width: 1.6; stroke-linejoin: round; }
svg .wave.differing { stroke: var(--refuted); }
svg .bus { fill: var(--wash); stroke: var(--accent); stroke-width: 1.4; stroke-linejoin: round; }
svg .bus.differing { fill: var(--mark); stroke: var(--refuted); }
.starts { display: flex; flex-wrap: wrap; gap: .2rem 1.2rem; font: 13px/1.6 var(--mono); margin-top: .5rem; }
.starts dt { color: var(--quiet); display: inline; }
.starts dd { display: inline; margin: 0 0 0 .4rem; }

#graph-body { overflow-x: auto; }
#graph-body svg { display: block; margin: 0 auto; max-width: 100%; height: auto; }
.edge { color: var(--quiet); opacity: .6; }
.edge path { fill: none; stroke: currentColor; stroke-width: 1.2; }
.edge polygon { fill: currentColor; }
.edge.refuted { color: var(--refuted); opacity: 1; }
.edge.refuted path { stroke-width: 2; stroke-dasharray: 6 4; }
.node { cursor: default; outline: none; }
.node rect { fill: var(--card); stroke: var(--quiet); stroke-width: 1.4; }
.node.proved rect { fill: var(--proved-wash); stroke: var(--proved); }
.node.refuted rect { fill: var(--refuted-wash); stroke: var(--refuted); stroke-width: 2.2; }
.node.spent rect { fill: var(--spent-wash); stroke: var(--spent); }
.node:focus-visible rect { stroke: var(--accent); stroke-width: 3; }
.looking .edge { opacity: .12; }
.looking .edge.on { opacity: 1; color: var(--accent); }
.looking .edge.on path { stroke-width: 2.2; }

#signs { list-style: none; }
#signs:empty, #blocks:empty { display: none; }
#signs > li { border-top: 1px solid var(--line); padding: .3rem 0; }
#signs summary { margin: 0; color: inherit; font-size: 1rem; }
#signs b { margin-right: .8rem; }
#signs .plain { padding-left: 1rem; }

@media (max-width: 760px) {
  header, main, nav { padding-left: 1rem; padding-right: 1rem; }
  .desk { grid-template-columns: minmax(0, 1fr); }
  nav { border-right: 0; border-bottom: 1px solid var(--line); min-height: 0; }
  .pair { grid-template-columns: minmax(0, 1fr); }
  #hello, #block > details, #block > section, main > section:last-child { padding: .8rem .9rem; }
  .head .actions { margin-left: 0; width: 100%; }
  .head .actions button { flex: 1; }
}
";

/// `page.js`
pub const PAGE_JS: &[u8] = b"\"use strict\";

const $ = id => document.getElementById(id);
const PARTS = [\"module\", \"set\"];
const MARKS = { proved: \"\\u2713\", refuted: \"\\u2717\", spent: \"?\" };

// The blocks by name, each with its report (null: none; undefined: not at the desk), and what is shown of them.
const blocks = new Map();
let shown = null;
let trace = null;
let checking = null;

// ---- elements

function put_in(node, attributes, children) {
  for (const [key, value] of Object.entries(attributes)) {
    if (key.startsWith(\"on\")) node.addEventListener(key.slice(2), value);
    else if (value !== false && value !== null) node.setAttribute(key, value);
  }
  node.append(...children);
  return node;
}

function el(tag, attributes = {}, ...children) {
  return put_in(document.createElement(tag), attributes, children);
}

function draw(tag, attributes = {}, ...children) {
  return put_in(document.createElementNS(\"http://www.w3.org/2000/svg\", tag), attributes, children);
}

function news(text) {
  $(\"news\").textContent = text;
}

function counted(number, word) {
  return `${number} ${word}${number === 1 ? \"\" : \"s\"}`;
}

// ---- the desk, which serves one connection after another: so one request at a time

class Refusal extends Error {
  constructor(status, line) {
    super(line);
    this.status = status;
  }
}

let latest = Promise.resolve();

/** The reply's text; throws a Refusal where the desk refuses, and another error where it doesn't answer. */
function ask(method, path, body) {
  const reply = latest.then(() => send(method, path, body));
  latest = reply.catch(() => {});
  return reply;
}

async function send(method, path, body) {
  let reply, text;
  try {
    reply = await fetch(path, { method, body, cache: \"no-store\" });
    text = await reply.text();
  } catch (error) {
    $(\"gone\").hidden = false;
    throw error;
  }
  $(\"gone\").hidden = true;
  if (reply.ok) return text;
  const told = /^\\{\"error\":\"([^]*)\"\\}$/.exec(text);
  throw new Refusal(reply.status, told ? told[1] : `status ${reply.status}`);
}

// ---- what this browser keeps: texts as typed, texts as the desk took them, and what was signed

function kept(key, otherwise) {
  try {
    return JSON.parse(localStorage.getItem(key)) ?? otherwise;
  } catch {
    return otherwise;
  }
}

function keep(key, value) {
  try {
    localStorage.setItem(key, JSON.stringify(value));
  } catch {
    news(\"This browser can't keep texts: copy them before you leave.\");
  }
}

function texts_of(name) {
  return kept(`texts ${name}`, { module: \"\", set: \"\", put: {} });
}

// ---- reports

/** The lines of a report, each with its number from 1. */
function lines_of(report) {
  const lines = [];
  report.split(\"\\n\").forEach((line, at) => {
    const told = /^(proved|refuted|spent) (.+)$/.exec(line);
    if (told) lines.push({ number: at + 1, verdict: told[1], name: told[2] });
  });
  return lines;
}

function count(lines, verdict) {
  return lines.filter(line => line.verdict === verdict).length;
}

/** A block's state in a word or two, and the verdict that gives its colour. */
function state_of(report) {
  if (report === undefined) return [\"\", \"no texts\"];
  if (report === null) return [\"\", \"not checked\"];
  const lines = lines_of(report);
  const refuted = count(lines, \"refuted\"), spent = count(lines, \"spent\");
  if (refuted) return [\"refuted\", `${refuted} refuted`];
  if (spent) return [\"spent\", `${spent} spent`];
  return [\"proved\", \"signed off\"];
}

function mark(line) {
  if (!line) return \"\";
  if (line.verdict === \"refuted\") {
    return el(\"button\", {
      type: \"button\", class: \"mark refuted\", \"data-line\": line.number, \"aria-pressed\": \"false\",
      \"aria-label\": `${line.name}: refuted, show the waveform`, title: line.name, onclick: () => show_trace(line),
    }, MARKS.refuted);
  }
  return el(\"span\", { class: `mark ${line.verdict}`, title: `${line.name}: ${line.verdict}` },
    MARKS[line.verdict], el(\"span\", { class: \"said\" }, ` ${line.verdict}`));
}

/** A table with a row for each name; a cell has the marks of the lines that `cell` finds. */
function table([title, note], rows, columns, cell) {
  const head = columns.map(it => el(\"th\", { scope: \"col\" }, it));
  const body = rows.map(row => el(\"tr\", {}, el(\"th\", { scope: \"row\" }, row),
    ...columns.map(column => el(\"td\", {}, ...cell(row, column).map(mark)))));
  return el(\"div\", { class: \"group\" }, el(\"h4\", {}, title), el(\"p\", { class: \"quiet\" }, note),
    el(\"div\", { class: \"wide\" }, el(\"table\", { \"aria-label\": title },
      el(\"thead\", {}, el(\"tr\", {}, el(\"td\"), ...head)), el(\"tbody\", {}, ...body))));
}

function open_lines(lines) {
  const open = lines.filter(line => line.verdict !== \"proved\");
  return el(\"ul\", { class: \"open\", \"aria-label\": \"Lines that aren't proved\" }, ...open.map(line => el(\"li\", {},
    line.verdict === \"spent\" ? el(\"span\", { class: \"spent\", title: \"The solver's steps ran out\" }, `spent ${line.name}`)
      : el(\"button\", { type: \"button\", class: \"refuted\", \"data-line\": line.number, \"aria-pressed\": \"false\",
        title: \"Show the waveform\", onclick: () => show_trace(line) }, line.name))));
}

function report_tables(lines) {
  const named = new Map(lines.map(line => [line.name, line]));
  const after = word => lines.filter(line => line.name.startsWith(`${word} `)).map(line => line.name.slice(word.length + 1));
  const invariants = after(\"base\"), operations = after(\"op\"), properties = [\"reset\", ...operations];
  const tables = [];
  if (invariants.length) {
    tables.push(table([\"Invariants\", \"after reset; from cycle to cycle\"], invariants, [\"base\", \"step\"],
      (row, column) => [named.get(`${column} ${row}`)]));
  }
  const kinds = [\"end\", \"split\", \"same-end\", \"determine\"].filter(it => after(it).length);
  tables.push(table([\"Operations\", \"the block; then what the set says\"], properties, [\"block\", ...kinds],
    (row, column) => [named.get(column !== \"block\" ? `${column} ${row}` : row === \"reset\" ? row : `op ${row}`)]));
  if (after(\"choose\").length + after(\"hand\").length) {
    tables.push(table([\"Edges\", \"choose, hand: from row to column\"], properties, operations,
      (row, column) => [named.get(`choose ${row} ${column}`), named.get(`hand ${row} ${column}`)]));
  }
  return tables;
}

function show_report(report) {
  $(\"report\").hidden = !report;
  if (!report) return;
  const lines = lines_of(report);
  const counts = [\"proved\", \"refuted\", \"spent\"].map(it => [it, count(lines, it)]).filter(([, number]) => number);
  const words = `${counted(lines.length, \"line\")}: ${counts.map(([it, number]) => `${number} ${it}`).join(\", \")}`;
  $(\"report-title\").textContent = `Report \\u2013 ${words}`;
  $(\"meter\").setAttribute(\"aria-label\", words);
  $(\"meter\").replaceChildren(...counts.map(([it, number]) => {
    const part = el(\"span\", { class: it });
    part.style.flexGrow = number;
    return part;
  }));
  $(\"report-body\").replaceChildren(open_lines(lines), el(\"div\", { class: \"groups\" }, ...report_tables(lines)));
  $(\"report-text\").textContent = report;
}

// ---- waveforms

/** A trace's text as the registers' first values and its one or two windows. */
function trace_of(text) {
  const starts = [], windows = [];
  let title = \"\";
  for (const line of text.trimEnd().split(\"\\n\").slice(1)) {
    const words = line.split(\" \");
    if (words[0] === \"start\") starts.push(words.slice(1));
    else if (words[0] === \"first\" || words[0] === \"second\") title = words[0];
    else if (words[0] === \"cycle\") windows.push({ title, names: words.slice(1), cycles: [], rows: [] });
    else {
      windows.at(-1).cycles.push(Number(words[0]));
      windows.at(-1).rows.push(words.slice(1));
    }
  }
  return { starts, windows };
}

/** The widths that a set declares, by name. */
function widths_of(set) {
  const widths = new Map();
  const form = /\\b(?:input|output|state)\\s+(?:signed\\s+)?(?:\\[\\s*(\\d+)\\s*:\\s*(\\d+)\\s*\\]\\s*)?([A-Za-z_][\\w$]*(?:\\s*\\.\\s*[\\w$]+)*)/g;
  for (const [, high, low, name] of without_comments(set).matchAll(form)) {
    widths.set(name.replace(/\\s/g, \"\"), high === undefined ? 1 : high - low + 1);
  }
  return widths;
}

function without_comments(text) {
  return text.replace(/\\/\\*[^]*?\\*\\/|\\/\\/[^\\n]*/g, \" \");
}

const ROW = 28, TOP = 24;

/** One signal's values in a window: a line for a bit, boxes with values for a word. */
function wave(values, differs, is_bit, y, cell, told) {
  const parts = [], high = y + 6, low = y + ROW - 7, mid = (high + low) / 2;
  for (let from = 0, to; from < values.length; from = to) {
    to = from + 1;
    while (to < values.length && values[to] === values[from] && differs[to] === differs[from]) to += 1;
    const left = from * cell, right = to * cell, kind = differs[from] ? \" differing\" : \"\";
    if (is_bit) {
      const at = values[from] === \"0\" ? low : high;
      const rise = from && values[from - 1] !== values[from] ? `M${left} ${low + high - at}V${at}` : `M${left} ${at}`;
      parts.push(draw(\"path\", { class: `wave${kind}`, d: `${rise}H${right}` }));
    } else {
      const box = `M${left} ${mid}L${left + 4} ${high}H${right - 4}L${right} ${mid}L${right - 4} ${low}H${left + 4}Z`;
      parts.push(draw(\"path\", { class: `bus${kind}`, d: box }),
        draw(\"text\", { x: (left + right) / 2, y: mid + 4, \"text-anchor\": \"middle\" }, told(values[from])));
    }
  }
  return parts;
}

/**
 * A window as a picture: `differs` says of each signal and cycle whether the other window has another value,
 * `told` how to write one.
 */
function window_picture(window, differs, widths, told, cell) {
  const height = TOP + window.names.length * ROW, width = window.cycles.length * cell;
  const side = Math.max(6, ...window.names.map(name => name.length)) * 7.3 + 14;
  const names = draw(\"svg\", { width: side, height, \"aria-hidden\": \"true\" }, draw(\"text\", { class: \"dim\", x: 0, y: 15 }, \"cycle\"));
  const which = window.title && ` of the ${window.title} window`;
  const waves = draw(\"svg\", { width: width + 1, height, role: \"img\",
    \"aria-label\": `Waveform${which}: ${counted(window.cycles.length, \"cycle\")} of ${window.names.join(\", \")}` });
  window.cycles.forEach((cycle, at) => {
    if (cycle < 0) waves.append(draw(\"rect\", { class: \"reset\", x: at * cell, y: 0, width: cell, height }));
    waves.append(draw(\"path\", { class: \"grid\", d: `M${at * cell + .5} ${TOP - 4}V${height}` }),
      draw(\"text\", { class: \"dim\", x: at * cell + cell / 2, y: 15, \"text-anchor\": \"middle\" }, String(cycle)));
  });
  window.names.forEach((name, at) => {
    const y = TOP + at * ROW, values = window.rows.map(row => row[at]);
    const is_bit = (widths.get(name) ?? 1) === 1 && values.every(value => value === \"0\" || value === \"1\");
    names.append(draw(\"text\", { class: differs[at].includes(true) ? \"name-differs\" : \"\", x: 0, y: y + 19 }, name));
    differs[at].forEach((differing, cycle) => {
      if (differing) waves.append(draw(\"rect\", { class: \"differs\", x: cycle * cell, y: y + 1, width: cell, height: ROW - 2 }));
    });
    waves.append(...wave(values, differs[at], is_bit, y, cell, told));
  });
  return el(\"div\", { class: \"window\" }, window.title ? el(\"h4\", {}, `${window.title} window`) : \"\",
    el(\"div\", { class: \"waves\" }, names,
      el(\"div\", { class: \"scroll\", tabindex: \"0\", role: \"region\", \"aria-label\": \"Waveform, scrolls sideways\" }, waves)));
}

/** Where the two windows of a trace differ, by signal and cycle. */
function differences(windows) {
  const [one, two] = windows;
  return one.names.map((_, at) => one.rows.map((row, cycle) => Boolean(two) && row[at] !== two.rows[cycle]?.[at]));
}

/** In which signals and cycles two windows differ, in words. */
function told_differences(windows, differs) {
  if (windows.length < 2) return \"\";
  const apart = windows[0].names.map((name, at) => [name, windows[0].cycles.filter((_, cycle) => differs[at][cycle])]);
  const told = apart.filter(([, cycles]) => cycles.length).map(([name, cycles]) => `${name} (cycle ${cycles.join(\", \")})`);
  return told.length ? `The windows differ in ${told.join(\"; \")}.` : \"The windows don't differ in a declared name.\";
}

function draw_trace() {
  const { starts, windows } = trace_of(trace.text);
  const differs = differences(windows), hex = $(\"base\").value === \"16\";
  const told = value => hex ? `0x${BigInt(value).toString(16)}` : value;
  const widest = Math.max(...windows.flatMap(it => it.rows.flat()).map(it => told(it).length));
  const cell = Math.max(46, widest * 7.4 + 16);
  const widths = widths_of(texts_of(shown).set);
  const registers = starts.map(([name, value]) => el(\"div\", {}, el(\"dt\", {}, name), el(\"dd\", {}, told(value))));
  $(\"trace-note\").textContent = told_differences(windows, differs);
  $(\"trace-body\").replaceChildren(...windows.map(it => window_picture(it, differs, widths, told, cell)));
  if (registers.length) {
    $(\"trace-body\").append(el(\"h4\", {}, \"Registers in the first cycle\"), el(\"dl\", { class: \"starts\" }, ...registers));
  }
  $(\"trace-text\").textContent = trace.text;
}

async function show_trace(line) {
  const name = shown;
  try {
    const text = await ask(\"GET\", `/blocks/${name}/trace/${line.number}`);
    if (shown !== name) return;
    trace = { line, text, report: blocks.get(name) };
    $(\"trace\").hidden = false;
    $(\"trace-title\").textContent = `Counterexample to ${line.name}`;
    draw_trace();
    press(line.number);
    $(\"trace-title\").focus();
    $(\"trace\").scrollIntoView({ block: \"nearest\" });
  } catch (error) {
    tell_error(error);
  }
}

function press(number) {
  for (const button of document.querySelectorAll(\"[data-line]\")) {
    button.setAttribute(\"aria-pressed\", String(Number(button.dataset.line) === number));
  }
}

function close_trace() {
  $(\"trace\").hidden = true;
  trace = null;
  press(0);
}

// ---- the graph of operations

/** The properties of a set, each with those that may follow it. */
function properties_of(set) {
  const text = without_comments(set), found = new Map(), head = /\\b(?:property|operation)\\s+([A-Za-z_][\\w$]*)\\s*\\{/g;
  for (let at; (at = head.exec(text)) !== null;) {
    let end = head.lastIndex, depth = 1;
    while (end < text.length && depth) {
      depth += text[end] === \"{\" ? 1 : text[end] === \"}\" ? -1 : 0;
      end += 1;
    }
    const next = /\\bnext\\s+([\\w$\\s,]+);\\s*$/.exec(text.slice(head.lastIndex, end - 1));
    found.set(at[1], next ? next[1].split(\",\").map(it => it.trim()) : []);
    head.lastIndex = end;
  }
  return found;
}

const NODE = 30;

/** The places of the properties on an ellipse, reset at the left. */
function places_of(names) {
  const across = Math.max(170, names.length * 34), down = Math.max(105, names.length * 22);
  return new Map(names.map((name, at) => {
    const turn = Math.PI + at * 2 * Math.PI / names.length;
    return [name, { x: across * Math.cos(turn), y: down * Math.sin(turn), half: name.length * 3.7 + 13 }];
  }));
}

/** Where a line from a point to a node's middle meets the node's edge. */
function rim(node, from) {
  const x = from.x - node.x, y = from.y - node.y;
  const part = Math.min(node.half / Math.max(Math.abs(x), .01), NODE / 2 / Math.max(Math.abs(y), .01));
  return { x: node.x + x * part, y: node.y + y * part };
}

function arrow(path, tip, from, attributes) {
  const turn = Math.atan2(tip.y - from.y, tip.x - from.x);
  const corner = side => `${tip.x - 9 * Math.cos(turn + side)},${tip.y - 9 * Math.sin(turn + side)}`;
  const head = `${tip.x},${tip.y} ${corner(.4)} ${corner(-.4)}`;
  return draw(\"g\", attributes, draw(\"path\", { d: path }), draw(\"polygon\", { points: head }));
}

function edge(one, two, attributes) {
  if (one === two) {
    const way = one.y > 1 ? 1 : -1, y = one.y + way * NODE / 2;
    const far = { x: one.x + 28, y: y + way * 36 }, tip = { x: one.x + 11, y };
    return arrow(`M${one.x - 11} ${y}C${one.x - 28} ${far.y} ${far.x} ${far.y} ${tip.x} ${tip.y}`, tip, far, attributes);
  }
  const x = two.x - one.x, y = two.y - one.y;
  const bend = { x: (one.x + two.x) / 2 - y * .14, y: (one.y + two.y) / 2 + x * .14 };
  const from = rim(one, bend), tip = rim(two, bend);
  return arrow(`M${from.x} ${from.y}Q${bend.x} ${bend.y} ${tip.x} ${tip.y}`, tip, bend, attributes);
}

function show_graph(set, report) {
  const follows = properties_of(set), names = [...follows.keys()];
  $(\"graph\").hidden = !names.length;
  if (!names.length) return;
  const verdicts = new Map(lines_of(report ?? \"\").map(line => [line.name, line.verdict]));
  const places = places_of(names), edges = [], nodes = [];
  const picture = draw(\"svg\", { role: \"group\", \"aria-label\": \"Graph of operations\" });
  const look = name => {
    picture.classList.toggle(\"looking\", name !== null);
    for (const it of edges) it.node.classList.toggle(\"on\", it.from === name);
  };
  for (const [name, next] of follows) {
    for (const to of next.filter(it => places.has(it))) {
      const refuted = [\"choose\", \"hand\"].some(it => verdicts.get(`${it} ${name} ${to}`) === \"refuted\");
      edges.push({ from: name, node: edge(places.get(name), places.get(to), { class: `edge${refuted ? \" refuted\" : \"\"}` }) });
    }
    const place = places.get(name), verdict = verdicts.get(name === \"reset\" ? name : `op ${name}`) ?? \"\";
    nodes.push(draw(\"g\", { class: `node ${verdict}`, tabindex: \"0\", role: \"img\",
      \"aria-label\": `${name}${verdict && `, ${verdict}`}; next: ${next.join(\", \")}`,
      onfocus: () => look(name), onblur: () => look(null), onpointerenter: () => look(name), onpointerleave: () => look(null) },
      draw(\"rect\", { x: place.x - place.half, y: place.y - NODE / 2, width: place.half * 2, height: NODE,
        rx: name === \"reset\" ? 4 : NODE / 2 }),
      draw(\"text\", { x: place.x, y: place.y + 4, \"text-anchor\": \"middle\" }, name)));
  }
  const all = [...places.values()], half = Math.max(34, ...all.map(it => it.half)) + 8;
  const left = Math.min(...all.map(it => it.x)) - half, right = Math.max(...all.map(it => it.x)) + half;
  const top = Math.min(...all.map(it => it.y)) - 62, bottom = Math.max(...all.map(it => it.y)) + 62;
  picture.setAttribute(\"viewBox\", `${left} ${top} ${right - left} ${bottom - top}`);
  picture.setAttribute(\"width\", right - left);
  picture.append(...edges.map(it => it.node), ...nodes);
  $(\"graph-body\").replaceChildren(picture);
}

// ---- texts and their faults

function typed(part) {
  const texts = texts_of(shown);
  texts[part] = $(part).value;
  keep(`texts ${shown}`, texts);
  tell_texts();
}

function tell_texts() {
  const texts = texts_of(shown);
  for (const part of PARTS) {
    const put = texts.put[part];
    const note = put === undefined ? \"\" : put === texts[part] ? \"at the desk\" : \"changed\";
    document.querySelector(`[data-part=${part}] .note`).textContent = note;
  }
}

/** The place in a text of the byte that a fault names, as an index of JavaScript's. */
function index_of_byte(text, byte) {
  return new TextDecoder().decode(new TextEncoder().encode(text).slice(0, byte)).length;
}

/** Shows the line of a fault beside the text that it is about, with the place that it names. */
function tell_fault(line) {
  const part = PARTS.find(it => line.startsWith(`${it}: `));
  const told = part ? $(`${part}-fault`) : $(\"fault\");
  told.replaceChildren(line);
  if (!part) return;
  const area = $(part), byte = / at (\\d+)$/.exec(line);
  area.setAttribute(\"aria-invalid\", \"true\");
  $(\"texts\").open = true;
  if (!byte) return;
  const index = index_of_byte(area.value, Number(byte[1])), before = area.value.slice(0, index).split(\"\\n\");
  told.append(` (line ${before.length}, column ${before.at(-1).length + 1})`, el(\"button\", { type: \"button\", onclick: () => {
    area.focus();
    area.setSelectionRange(index, index + Math.max(1, /^[\\w$]*/.exec(area.value.slice(index))[0].length));
    area.scrollTop = (before.length - 4) * area.scrollHeight / area.value.split(\"\\n\").length;
  } }, \"Show\"));
}

/** Tells an error of a request: the desk's own line, where it refused. */
function tell_error(error) {
  if (error instanceof Refusal) tell_fault(error.message);
  else if ($(\"gone\").hidden) throw error;
}

function no_faults(parts) {
  $(\"fault\").replaceChildren();
  for (const part of parts) {
    $(`${part}-fault`).replaceChildren();
    $(part).removeAttribute(\"aria-invalid\");
  }
}

async function put_text(name, part) {
  const texts = texts_of(name), text = texts[part];
  no_faults([part]);
  await ask(\"PUT\", `/blocks/${name}/${part}`, text);
  texts.put[part] = text;
  keep(`texts ${name}`, { ...texts_of(name), put: texts.put });
  blocks.set(name, null);
  if (shown === name) show_block(name);
  list_blocks();
  news(`${name}: the ${part} is at the desk.`);
}

// ---- blocks

function list_blocks() {
  const names = [...blocks.keys()].sort();
  $(\"no-blocks\").hidden = names.length > 0;
  $(\"blocks\").replaceChildren(...names.map(name => {
    const [verdict, words] = state_of(blocks.get(name));
    const now = name === shown ? \"true\" : null;
    return el(\"li\", {}, el(\"button\", { type: \"button\", \"aria-current\": now, onclick: () => go_to(name) },
      el(\"span\", {}, name), el(\"span\", { class: `state ${verdict}` }, words)));
  }));
}

/** Shows what there is of a block, its texts but for those that are being typed. */
function show_block(name) {
  const report = blocks.get(name), texts = texts_of(name);
  $(\"hello\").hidden = true;
  $(\"block\").hidden = false;
  $(\"block-title\").textContent = name;
  const [verdict, words] = state_of(report);
  $(\"block-state\").className = `state ${verdict}`;
  $(\"block-state\").textContent = words;
  $(\"check\").disabled = checking !== null;
  $(\"sign\").disabled = checking !== null || words !== \"signed off\";
  $(\"working\").hidden = checking !== name;
  $(\"forget\").hidden = report !== undefined;
  for (const part of PARTS) if ($(part).value !== texts[part]) $(part).value = texts[part];
  tell_texts();
  if (!report || (trace && trace.report !== report)) close_trace();
  show_report(report);
  show_graph(texts.put.set ?? texts.set, report);
}

function go_to(name) {
  shown = name;
  if (location.hash !== `#${name}`) history.pushState(null, \"\", `#${name}`);
  no_faults(PARTS);
  close_trace();
  $(\"texts\").open = !blocks.get(name);
  show_block(name);
  list_blocks();
  $(\"block-title\").focus();
}

async function check_block() {
  const name = shown, began = Date.now();
  checking = name;
  no_faults(PARTS);
  show_block(name);
  const tick = () => { $(\"elapsed\").textContent = `${Math.floor((Date.now() - began) / 1000)} s`; };
  const clock = setInterval(tick, 1000);
  tick();
  news(`${name}: the check is running.`);
  try {
    const texts = texts_of(name);
    for (const part of PARTS) if (texts[part] && texts[part] !== texts.put[part]) await put_text(name, part);
    blocks.set(name, await ask(\"POST\", `/blocks/${name}/check`));
    news(`${name}: ${state_of(blocks.get(name))[1]}, after ${Math.ceil((Date.now() - began) / 1000)} s.`);
  } catch (error) {
    news(error instanceof Refusal ? `${name}: ${error.message}` : \"\");
    if (shown === name) tell_error(error);
  } finally {
    clearInterval(clock);
    checking = null;
    list_blocks();
    if (shown !== null) show_block(shown);
    if (shown === name && blocks.get(name)) {
      $(\"texts\").open = false;
      $(\"report-title\").focus();
    }
  }
}

// ---- sign-offs

async function list_signs() {
  const signs = JSON.parse(await ask(\"GET\", \"/signoffs\"));
  $(\"no-signs\").hidden = signs.length > 0;
  $(\"signs\").replaceChildren(...signs.map(({ block, number }) => {
    const signed = kept(`sign ${number}`, null), title = [el(\"b\", {}, `No. ${number}`), el(\"span\", {}, block)];
    if (!signed || signed.block !== block) return el(\"li\", {}, el(\"p\", { class: \"plain\" }, ...title));
    const texts = PARTS.concat(\"report\").map(it => [el(\"h4\", {}, it), el(\"pre\", { tabindex: \"0\" }, signed[it])]);
    return el(\"li\", {}, el(\"details\", {}, el(\"summary\", {}, ...title), ...texts.flat()));
  }));
}

async function sign_block() {
  const name = shown, { put } = texts_of(name), report = blocks.get(name);
  no_faults([]);
  try {
    const { number } = JSON.parse(await ask(\"POST\", `/blocks/${name}/sign`));
    if (put.module !== undefined && put.set !== undefined) keep(`sign ${number}`, { block: name, ...put, report });
    news(`${name}: sign-off No. ${number}.`);
    await list_signs();
  } catch (error) {
    tell_error(error);
  }
}

function forget_draft() {
  localStorage.removeItem(`texts ${shown}`);
  blocks.delete(shown);
  shown = null;
  history.pushState(null, \"\", \"#\");
  $(\"block\").hidden = true;
  $(\"hello\").hidden = false;
  list_blocks();
  $(\"main\").focus();
}

// ---- the page

async function report_of(name) {
  try {
    return await ask(\"GET\", `/blocks/${name}/report`);
  } catch (error) {
    if (error instanceof Refusal) return null;
    throw error;
  }
}

async function load() {
  try {
    const names = JSON.parse(await ask(\"GET\", \"/blocks\"));
    blocks.clear();
    for (const key of Object.keys(localStorage).filter(it => it.startsWith(\"texts \"))) blocks.set(key.slice(6), undefined);
    for (const name of names) blocks.set(name, null);
    for (const name of blocks.keys()) if (!names.includes(name)) keep(`texts ${name}`, { ...texts_of(name), put: {} });
    list_blocks();
    await list_signs();
    for (const name of names) {
      blocks.set(name, await report_of(name));
      list_blocks();
    }
    follow_address();
    news(\"\");
  } catch (error) {
    tell_error(error);
  }
}

function follow_address() {
  const name = decodeURIComponent(location.hash.slice(1));
  if (blocks.has(name)) go_to(name);
}

function begin() {
  for (const part of PARTS) {
    const side = document.querySelector(`[data-part=${part}]`);
    $(part).addEventListener(\"input\", () => typed(part));
    side.querySelector(\".put\").addEventListener(\"click\", () => put_text(shown, part).catch(tell_error));
    side.querySelector(\"input\").addEventListener(\"change\", async event => {
      const [file] = event.target.files;
      if (!file) return;
      $(part).value = await file.text();
      event.target.value = \"\";
      typed(part);
      await put_text(shown, part).catch(tell_error);
    });
  }
  $(\"add\").addEventListener(\"submit\", event => {
    event.preventDefault();
    const name = $(\"add-name\").value;
    $(\"add-name\").value = \"\";
    if (!blocks.has(name)) blocks.set(name, undefined);
    go_to(name);
  });
  $(\"check\").addEventListener(\"click\", check_block);
  $(\"sign\").addEventListener(\"click\", sign_block);
  $(\"forget\").addEventListener(\"click\", forget_draft);
  $(\"trace-close\").addEventListener(\"click\", () => {
    const button = document.querySelector(`.open [data-line=\"${trace.line.number}\"]`);
    close_trace();
    button.focus();
  });
  $(\"base\").addEventListener(\"change\", draw_trace);
  $(\"again\").addEventListener(\"click\", load);
  window.addEventListener(\"popstate\", follow_address);
  load();
}

begin();
";
