//! The script of the page. It writes all that it got as text, never as markup.

/// The script of the page.
pub(crate) const SCRIPT: &str = r##"
"use strict";
const PAUSE = 2000, ROWS = 100;
const numbers = new Intl.NumberFormat("en-US");
const rates = new Intl.NumberFormat("en-US", { maximumSignificantDigits: 3 });
const find = (id) => document.getElementById(id);

// An element with a text. All text of others is written as text.
function element(tag, text, kind) {
  const made = document.createElement(tag);
  if (text !== undefined) made.textContent = text;
  if (kind) made.className = kind;
  return made;
}

function moment(time) {
  const pad = (n) => String(n).padStart(2, "0");
  const at = new Date(time);
  return `${at.getFullYear()}-${pad(at.getMonth() + 1)}-${pad(at.getDate())} ` +
    `${pad(at.getHours())}:${pad(at.getMinutes())}:${pad(at.getSeconds())}`;
}

function span(milliseconds) {
  const seconds = Math.max(0, Math.floor(milliseconds / 1000));
  const [d, h, m] = [Math.floor(seconds / 86400), Math.floor(seconds / 3600) % 24, Math.floor(seconds / 60) % 60];
  if (d) return `${d} d ${h} h`;
  if (h) return `${h} h ${m} min`;
  return m ? `${m} min ${seconds % 60} s` : `${seconds} s`;
}

function size(bytes) {
  return bytes >= 1073741824 ? `${(bytes / 1073741824).toFixed(2)} GiB` : `${(bytes / 1048576).toFixed(1)} MiB`;
}

function duration(microseconds) {
  if (microseconds >= 1e6) return `${(microseconds / 1e6).toFixed(2)} s`;
  return microseconds >= 1e3 ? `${(microseconds / 1e3).toFixed(1)} ms` : `${microseconds} µs`;
}

function fact(name, value, more, kind) {
  const made = element("div");
  made.append(element("dt", name), element("dd", value, kind));
  if (more) made.append(element("dd", more, "more"));
  return made;
}

function showFacts(data) {
  const { status } = data;
  const { stream } = status;
  const lacking = status.filters.filter((it) => !it.policies).length;
  const why = status.drains ? "drains" : lacking ? `${numbers.format(lacking)} of ${numbers.format(status.filters.length)} filters lack policies` : "";
  const isUp = stream.state === "up";
  const since = `since ${moment(stream.since)}, ${span(Date.now() - stream.since)}`;
  find("facts").replaceChildren(
    fact("Ready", data.ready ? "yes" : "no", why, data.ready ? "good" : "bad"),
    fact("Update stream", isUp ? "up" : "down", isUp ? since : `${since}: ${stream.why}`, isUp ? "good" : "bad"),
    fact("Version", status.version || "none yet", `generation ${numbers.format(status.generation)}`),
    fact("Open connections", numbers.format(data.open), `greatest ${numbers.format(data.most_open)}`),
    fact("Memory", status.resident_memory ? size(status.resident_memory) : "unknown"),
    fact("Uptime", span(Date.now() - status.started), `since ${moment(status.started)}`),
  );
}

function table(heads, rows) {
  const made = element("table");
  const line = (cells, tag) => {
    const row = element("tr");
    cells.forEach((cell, k) => row.append(element(tag, cell, heads[k][1])));
    return row;
  };
  const [head, body] = [element("thead"), element("tbody")];
  head.append(line(heads.map((it) => it[0]), "th"));
  rows.forEach((cells) => body.append(line(cells, "td")));
  made.append(head, body);
  return made;
}

function showFilter(filter, matches) {
  const made = element("div");
  made.append(element("h2", `Filter ${filter.name}`));
  const { policies } = filter;
  if (!policies) {
    made.append(element("p", `no policies yet, budget ${numbers.format(filter.budget)} steps`, "bad"));
    return made;
  }
  const share = filter.budget ? ` (${rates.format(100 * policies.bound / filter.budget)} %)` : "";
  const bound = `bound ${numbers.format(policies.bound)} of ${numbers.format(filter.budget)} steps${share}`;
  made.append(element("p", `${bound}, version ${policies.version}`, "quiet names"));
  const rows = policies.names.map((name, k) => [name, matches[k] || 0]);
  rows.sort((a, b) => b[1] - a[1]);
  const shown = rows.slice(0, ROWS).map(([name, count]) => [name, numbers.format(count)]);
  made.append(table([["Policy", ""], ["Matches", "number"]], shown));
  if (rows.length > ROWS) made.append(element("p", `and ${numbers.format(rows.length - ROWS)} more with fewer matches`, "quiet"));
  return made;
}

function showRefusal(refusal) {
  if (!refusal) return element("p", "none", "quiet");
  const made = element("dl", undefined, "pairs");
  const rows = [
    ["Time", moment(refusal.time)],
    ["Version", refusal.version],
    ["Reason", `${refusal.number} ${refusal.name}`],
    ["Cause", refusal.cause],
    ["Filter", refusal.filter ?? "unknown"],
    ["Place", refusal.place ?? "unknown"],
  ];
  rows.forEach(([name, text]) => made.append(element("dt", name), element("dd", text)));
  return made;
}

function showSlowest(slowest) {
  if (!slowest.length) return element("p", "none yet", "quiet");
  const rows = slowest.map((it) => [it.version, moment(it.time), duration(it.microseconds)]);
  return table([["Version", ""], ["Time", "time"], ["Took", "number"]], rows);
}

function drawn(tag, attributes, kind) {
  const made = document.createElementNS("http://www.w3.org/2000/svg", tag);
  for (const [name, value] of Object.entries(attributes)) made.setAttribute(name, value);
  if (kind) made.setAttribute("class", kind);
  return made;
}

// The least of 1, 2 and 5 times a power of ten that is not below a number.
function round(number) {
  let power = 1;
  while (power * 10 < number) power *= 10;
  return [1, 2, 5, 10].map((it) => it * power).find((it) => it >= number);
}

// The lines of the verdicts. The last bucket is not full yet, and is left out.
function showRecent(recent) {
  const kinds = ["allow", "deny", "other"];
  const seconds = recent.bucket / 1000;
  const rows = kinds.map((kind) => recent[kind].slice(0, -1).map((count) => count / seconds));
  const most = round(Math.max(1, ...rows.flat()));
  const last = Math.max(1, rows[0].length - 1);
  const lines = [0, 50, 100, 150, 200].map((y) => drawn("line", { x1: 0, x2: 1000, y1: y, y2: y }));
  const paths = kinds.map((kind, k) => {
    const points = rows[k].map((rate, at) => `${(1000 * at / last).toFixed(1)} ${(199 - 198 * rate / most).toFixed(1)}`);
    return drawn("path", { d: `M${points.join("L")}` }, kind);
  });
  find("chart").replaceChildren(...lines, ...paths.reverse());
  find("most").textContent = `${numbers.format(most)} per second`;
  const minutes = Math.round(recent.allow.length * seconds / 60);
  find("minutes").textContent = minutes;
  find("oldest").textContent = `${minutes} min ago`;
  find("legend").replaceChildren(...kinds.map((kind, k) => {
    const made = element("span", `${kind} `, kind);
    made.append(element("b", rates.format(rows[k][last] ?? 0)));
    return made;
  }));
}

// Replaces what an element shows, unless its data is the same, so that a reader's selection stays.
const shown = {};
function put(id, data, make) {
  const text = JSON.stringify(data);
  if (shown[id] === text) return;
  shown[id] = text;
  find(id).replaceChildren(...make());
}

function show(data) {
  const { filters, node, refusal } = data.status;
  find("node").textContent = `node ${node}`;
  showFacts(data);
  showRecent(data.recent);
  put("filters", [filters, data.matches], () => filters.map((it, k) => showFilter(it, data.matches[k] ?? [])));
  put("refusal", [refusal], () => [showRefusal(refusal)]);
  put("slowest", data.slowest, () => [showSlowest(data.slowest)]);
}

let answered = Date.now();
async function poll() {
  const notice = find("notice");
  try {
    const response = await fetch("page.json", { cache: "no-store", signal: AbortSignal.timeout(10000) });
    if (!response.ok) throw new Error(`status ${response.status}`);
    show(await response.json());
    answered = Date.now();
    notice.hidden = true;
  } catch (error) {
    notice.textContent = `No answer since ${moment(answered)} (${error.message}). The numbers below are from then.`;
    notice.hidden = false;
  }
  setTimeout(poll, PAUSE);
}
poll();
"##;
