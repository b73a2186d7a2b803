/// The status page, which reads `metrics` relative to itself every three seconds.
pub const STATUS_PAGE: &str = r#"<!DOCTYPE html>
<html lang="en">
<head>
<meta charset="utf-8">
<meta name="viewport" content="width=device-width, initial-scale=1">
<title>bayeuxd</title>
<link rel="icon" href="data:,">
<style>
:root {
  color-scheme: light dark;
  --page: light-dark(#eef1f5, #14171c);
  --sheet: light-dark(#ffffff, #1d2127);
  --line: light-dark(#dde2ea, #333a44);
  --text: light-dark(#1b2430, #e8ebf0);
  --faint: light-dark(#566176, #a3aec0);
  --wrong: light-dark(#b3261e, #ff8a80);
}
* { box-sizing: border-box; }
[hidden] { display: none !important; }
body { max-width: 75rem; margin: 0 auto; padding: 1rem; background: var(--page); color: var(--text); font: 1rem/1.5 system-ui, sans-serif; }
header { display: flex; flex-wrap: wrap; align-items: baseline; justify-content: space-between; gap: 0 1rem; }
h1 { margin: 0; font-size: 1.5rem; }
h2 { margin: 0; font-size: 1rem; }
p { margin: 0; }
#state { color: var(--faint); font-size: 0.875rem; }
#state::before { content: ''; display: inline-block; width: 0.625rem; height: 0.625rem; margin-right: 0.5rem; border-radius: 50%; background: #9aa4b5; }
#state.connected::before { background: #1f9d55; }
#state.interrupted { color: var(--wrong); }
#state.interrupted::before { background: #e0932f; }
dl { display: flex; flex-wrap: wrap; gap: 0.5rem 2rem; margin: 0.75rem 0 1rem; }
dt { color: var(--faint); font-size: 0.8125rem; }
dd { margin: 0; font-variant-numeric: tabular-nums; }
main { display: grid; grid-template-columns: repeat(auto-fit, minmax(min(100%, 26rem), 1fr)); gap: 1rem; }
.card { min-width: 0; padding: 0.75rem 1rem; border: 1px solid var(--line); border-radius: 0.5rem; background: var(--sheet); }
.head { display: flex; align-items: baseline; justify-content: space-between; gap: 1rem; }
.value { font-size: 1.5rem; font-weight: 600; font-variant-numeric: tabular-nums; white-space: nowrap; }
.unit, .axis, .most, .key, .rest { color: var(--faint); font-size: 0.75rem; }
.plot { position: relative; height: 8rem; margin-top: 0.25rem; border-bottom: 1px solid var(--faint); cursor: crosshair; touch-action: pan-y; }
.plot svg { position: absolute; width: 100%; height: 100%; overflow: hidden; }
.most { position: absolute; top: 0; left: 0; padding-right: 0.25rem; background: var(--sheet); line-height: 1.2; }
path { fill: none; stroke-width: 2; stroke-linejoin: round; vector-effect: non-scaling-stroke; }
.grid, .cursor { stroke: var(--line); stroke-width: 1; }
.cursor { stroke: var(--faint); }
.axis { position: relative; height: 1.5em; }
.axis span { position: absolute; }
.axis span:nth-child(2) { left: 33.3%; transform: translateX(-50%); }
.axis span:nth-child(3) { left: 66.7%; transform: translateX(-50%); }
.axis .now { right: 0; padding-left: 0.25rem; background: var(--sheet); }
.key { display: flex; flex-wrap: wrap; gap: 0 0.875rem; margin: 0.25rem 0 0; padding: 0; list-style: none; font-variant-numeric: tabular-nums; }
.key i { display: inline-block; width: 0.75rem; height: 0.1875rem; margin-right: 0.375rem; vertical-align: middle; }
.key:empty { display: none; }
.old .plot { opacity: 0.5; }
</style>
</head>
<body>
<header>
  <h1>bayeuxd</h1>
  <nav><a href="metrics">Metrics</a> <a href="sessions">Sessions</a> <a href="channels">Channels</a></nav>
  <p id="state" role="status">no data yet</p>
</header>
<dl id="facts"></dl>
<main></main>

<template id="card">
  <section class="card">
    <div class="head"><h2></h2><p><span class="value">–</span> <span class="unit"></span></p></div>
    <div class="plot">
      <svg viewBox="0 0 900 100" preserveAspectRatio="none" role="img">
        <path class="grid" d="M0 .5H900M0 50H900M300 0V100M600 0V100"></path><g></g><path class="cursor"></path>
      </svg>
      <span class="most"></span>
    </div>
    <div class="axis" aria-hidden="true"><span>15 min ago</span><span>10</span><span>5</span><span class="now">now</span></div>
    <ul class="key"></ul>
    <p class="rest"></p>
  </section>
</template>

<script>
'use strict';
// Plots the metrics of a bayeuxd, which this page reads from `metrics` next to it, in Prometheus'
// text format. The curves begin when the page is opened.

// Milliseconds: between two reads, until a read fails, that the curves show, and after which a
// curve has a gap, for example because a phone was locked.
const PAUSE = 3000, PATIENCE = 5000, SPAN = 900000, GAP = 120000;
// The most series of a chart that its key lists.
const LISTED = 12;
// Each chart shows all series of a metric. `isRate`: a counter, which is shown per second.
// The value above a chart is the sum of its series, or with `isLargest` the largest. `nameOf`:
// returns the name of a series in the key, or undefined to leave it out. `isQuiet`: the key lists
// no series that was always 0.
const CHARTS = [
  { title: 'Requests', unit: 'per second', metric: 'bayeux_requests_admitted_total', isRate: true },
  { title: 'Events', unit: 'per second', metric: 'bayeux_events_total', isRate: true },
  { title: 'Sessions', unit: '', metric: 'bayeux_sessions' },
  { title: 'Held connects', unit: '', metric: 'bayeux_connects_held' },
  {
    title: 'Refusals', unit: 'per second', metric: 'bayeux_requests_refused_total', isRate: true,
    nameOf: ({ status, reason }) => `${status} ${reason}`, isQuiet: true,
  },
  { title: 'Shard lag', unit: 'entries', metric: 'bayeux_shard_lag_entries', nameOf: ({ shard }) => `shard ${shard}`, isLargest: true },
];
// The name of each fact, its text, and what it counts if the name does not say it.
const FACTS = [
  ['Version', (of, version) => version],
  ['Uptime', (of) => formatTime(of('bayeux_uptime_seconds_total'))],
  ['Connections', (of) => format(of('bayeux_connections'))],
  ['Window', (of) => `${format(of('bayeux_window_batches'))} of 4,096`, 'Batches that a shard still needs'],
  ['Shards behind', (of) => format(of('bayeux_shards_behind')), 'Shards that had not applied the last tick'],
  ['No response', (of) => format(of('bayeux_responses_missing_total')), 'Requests dropped for lack of memory'],
  ['Memory', (of) => `${format(of('process_resident_memory_bytes') / 1e6)} MB`],
  ['Open files', (of) => `${format(of('process_open_fds'))} of ${format(of('process_max_fds'))}`],
];

// What was read: `{ time, values }`. `values` is null if a read failed, and otherwise a map from
// the name of each metric to its series: `{ labels, value }` by the text of the labels.
let samples = [];
// The time under the pointer, or null.
let pointed = null;

const element = (id) => document.getElementById(id);

/** Returns the metrics of a page in Prometheus' text format. */
function parse(text) {
  const metrics = new Map();
  for (const line of text.split('\n')) {
    const found = line.match(/^([A-Za-z_:][\w:]*)(?:\{(.*)\})?\s+(\S+)/);
    if (!found) continue;
    const [, name, labels = '', value] = found;
    const pairs = [...labels.matchAll(/(\w+)="((?:[^"\\]|\\.)*)"/g)].map(([, label, it]) => [label, it]);
    if (!metrics.has(name)) metrics.set(name, new Map());
    metrics.get(name).set(labels, { labels: Object.fromEntries(pairs), value: Number(value) });
  }
  return metrics;
}

function format(value) {
  const digits = Math.abs(value) < 10 ? 2 : Math.abs(value) < 100 ? 1 : 0;
  return Number.isFinite(value) ? value.toLocaleString('en', { maximumFractionDigits: digits }) : '–';
}

function formatTime(seconds) {
  const parts = [[86400, 'd'], [3600, 'h'], [60, 'min'], [1, 's']];
  const at = Math.max(0, parts.findIndex(([length]) => seconds >= length));
  const text = (index, rest) => `${Math.floor(rest / parts[index][0])} ${parts[index][1]}`;
  return Number.isFinite(seconds) ? `${text(at, seconds)}${at < 3 && seconds ? ` ${text(at + 1, seconds % parts[at][0])}` : ''}` : '–';
}

/** Returns the series of a chart: `{ name, points }`. A point is `{ time, value }`, with null for a gap. */
function seriesOf({ metric, isRate, nameOf = () => '' }) {
  const found = new Map();
  for (const { values } of samples) {
    for (const [key, { labels }] of values?.get(metric) ?? []) if (nameOf(labels) !== undefined) found.set(key, nameOf(labels));
  }
  const valueAt = (index, key) => samples[index]?.values?.get(metric)?.get(key)?.value ?? null;
  return [...found].map(([key, name]) => ({
    name,
    points: samples.map(({ time }, index) => {
      const now = valueAt(index, key), before = valueAt(index - 1, key);
      if (!isRate || now === null) return { time, value: now };
      // A counter that falls begins again after a restart.
      const isKnown = before !== null && now >= before;
      return { time, value: isKnown ? (1000 * (now - before)) / (time - samples[index - 1].time) : null };
    }),
  }));
}

/** Returns the least of 1, 2, 5, 10, 20 .. that is not below `value`. */
function roundUp(value) {
  const power = 10 ** Math.floor(Math.log10(Math.max(1, value)));
  return [1, 2, 5, 10].map((it) => it * power).find((it) => it >= value);
}

/** Returns the outline of a curve up to the time `end`. */
function outline(points, most, end) {
  let isOpen = false;
  return points.map(({ time, value }) => {
    if (value === null) return (isOpen = false, '');
    const command = isOpen ? 'L' : 'M';
    isOpen = true;
    return `${command}${(900 - (end - time) / 1000).toFixed(1)} ${(100 - (98 * value) / most).toFixed(2)}`;
  }).join('');
}

const colourOf = (index) => `light-dark(hsl(${(220 + 137.5 * index) % 360} 70% 40%), hsl(${(220 + 137.5 * index) % 360} 80% 70%))`;

/** Returns the index of the sample that is shown: the last one, or the one nearest to the pointer. */
function shownIndex() {
  const distance = ({ time }) => Math.abs(time - pointed);
  return pointed === null ? samples.length - 1 : samples.reduce((best, it, at) => (distance(it) < distance(samples[best]) ? at : best), 0);
}

function drawChart(chart, end) {
  const { root, title, isLargest, isQuiet } = chart;
  const series = seriesOf(chart), at = shownIndex();
  const peak = ({ points }) => Math.max(0, ...points.map(({ value }) => value ?? 0));
  const most = roundUp(Math.max(0, ...series.map(peak)));
  const shown = series.map(({ points }) => points[at].value).filter((it) => it !== null);
  const value = shown.length === 0 ? NaN : isLargest ? Math.max(...shown) : shown.reduce((sum, it) => sum + it, 0);
  root.querySelector('.value').textContent = format(value);
  root.querySelector('.most').textContent = format(most);
  root.querySelector('svg').setAttribute('aria-label', `${title} in the last 15 minutes, now ${format(value)}`);
  root.querySelector('g').replaceChildren(...series.map(({ points }, index) => {
    const path = document.createElementNS('http://www.w3.org/2000/svg', 'path');
    path.setAttribute('class', 'curve');
    path.setAttribute('d', outline(points, most, end));
    path.style.stroke = colourOf(index);
    return path;
  }));
  root.querySelector('.cursor').setAttribute('d', pointed === null ? '' : `M${900 - (end - samples[at].time) / 1000} 0V100`);
  root.querySelector('.now').textContent = pointed === null ? 'now' : `at ${new Date(samples[at].time).toLocaleTimeString()}`;
  const listed = series.map((it, index) => ({ ...it, index })).filter((it) => it.name && (!isQuiet || peak(it) > 0));
  listed.sort((one, other) => (listed.length > LISTED ? peak(other) - peak(one) : 0));
  root.querySelector('.key').replaceChildren(...listed.slice(0, LISTED).map(({ name, points, index }) => {
    const item = document.createElement('li'), mark = document.createElement('i');
    mark.style.background = colourOf(index);
    item.append(mark, `${name}: ${format(points[at].value ?? NaN)}`);
    return item;
  }));
  root.querySelector('.rest').textContent = listed.length > LISTED ? `and ${listed.length - LISTED} more` : '';
}

function draw() {
  const last = samples.findLast(({ values }) => values), now = samples.at(-1);
  const isLive = last !== undefined && last === now;
  document.body.classList.toggle('old', last !== undefined && !isLive);
  element('state').className = isLive ? 'connected' : 'interrupted';
  element('state').textContent = isLive ? `reads the metrics every ${PAUSE / 1000} s`
    : last ? `no metrics since ${new Date(last.time).toLocaleTimeString()}` : 'no metrics at this address';
  if (!last) return;
  const of = (name) => last.values.get(name)?.get('')?.value ?? NaN;
  const [build] = last.values.get('bayeux_build_info')?.values() ?? [];
  element('facts').replaceChildren(...FACTS.map(([name, text, title = '']) => {
    const item = document.createElement('div'), term = document.createElement('dt'), value = document.createElement('dd');
    [term.textContent, value.textContent, item.title] = [name, text(of, build?.labels.version ?? '–'), title];
    item.append(term, value);
    return item;
  }));
  for (const chart of CHARTS) drawChart(chart, now.time);
}

async function read() {
  let values = null;
  try {
    const response = await fetch('metrics', { cache: 'no-store', signal: AbortSignal.timeout(PATIENCE) });
    if (response.ok) values = parse(await response.text());
    if (!values?.has('bayeux_uptime_seconds_total')) values = null;
  } catch { /* The page says so. */ }
  const time = Date.now(), kept = samples.filter((it) => it.time > time - SPAN);
  const gap = kept.length > 0 && time - kept.at(-1).time > GAP ? [{ time, values: null }] : [];
  samples = [...kept, ...gap, { time, values }];
  draw();
  setTimeout(read, PAUSE);
}

document.title = `bayeuxd at ${location.host}`;
for (const chart of CHARTS) {
  chart.root = element('card').content.firstElementChild.cloneNode(true);
  chart.root.querySelector('h2').textContent = chart.title;
  chart.root.querySelector('.unit').textContent = chart.unit;
  const plot = chart.root.querySelector('.plot');
  const point = (event) => {
    if (samples.length === 0) return;
    const { left, width } = plot.getBoundingClientRect();
    pointed = event ? samples.at(-1).time - SPAN * (1 - (event.clientX - left) / width) : null;
    draw();
  };
  plot.addEventListener('pointermove', point);
  for (const it of ['pointerleave', 'pointercancel']) plot.addEventListener(it, () => point(null));
  document.querySelector('main').append(chart.root);
}
read();
</script>
</body>
</html>
"#;
