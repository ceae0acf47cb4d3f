//! The script of the page. It is written by `tools/view/embed.py` from `picture.js` beside that.

/// The text of it.
pub(crate) const SCRIPT: &str = r#"(() => {
'use strict';
const byId = id => document.getElementById(id);
const plot = byId('plot'), run = byId('run'), live = byId('shapes'), line = byId('line'), names = byId('names');
const slots = Number(plot.dataset.slots), first = Number(plot.dataset.width);
const ruler = byId('ruler'), kept = byId('all');
const NS = plot.namespaceURI;
let width = first, about = 0, at = 0, lines = null;
const each = (list, f) => { for (const item of list) f(item); };
const labelOf = e => e.classList.contains('fault') ? null : e.querySelector(':scope > text');
const shapeOf = e => ({ e, a: Number(e.dataset.a), b: Number(e.dataset.b), o: Number(e.dataset.o), r: Number(e.dataset.r), free: e.classList.contains('column'), t: labelOf(e), x: 3 });
const rowOf = text => { const f = text.split('|'), [a, b, y, h, filled, n, o, r] = f.slice(1, 9).map(Number); return { c: f[0], a, b, y, h, filled, n, o, r, label: f[9] }; };
const all = kept ? kept.textContent.split('\n').filter(text => text).map(rowOf) : [...live.querySelectorAll('svg.s')].map(shapeOf);
const textOf = n => { lines = lines || byId('lines').textContent.split('\n'); return n === 0 ? 'from the beginning' : lines[n - 1] || ''; };
const isAbout = s => about === 0 || s.free || s.o === about || s.r === about;
const place = (e, a, b) => { const x = a * width / slots; e.setAttribute('x', x); e.setAttribute('width', Math.max(1, b * width / slots - x)); };
const labelAt = (a, b) => { const x = a * width / slots, left = run.scrollLeft; return x < left && b * width / slots > left ? left - x + 3 : 3; };
const showLabels = () => each(all, s => { const x = s.t ? labelAt(s.a, s.b) : s.x; if (x !== s.x) { s.x = x; s.t.setAttribute('x', x); } });
const dim = s => s.e.classList.toggle('dim', !isAbout(s));
const part = (parent, name, attributes) => { const e = document.createElementNS(NS, name); for (const key in attributes) e.setAttribute(key, attributes[key]); parent.append(e); return e; };
const made = s => {
  const e = document.createElementNS(NS, 'svg');
  e.setAttribute('class', isAbout(s) ? s.c : s.c + ' dim'); e.setAttribute('y', s.y); e.setAttribute('height', s.h);
  Object.assign(e.dataset, { a: s.a, b: s.b, n: s.n, o: s.o, r: s.r });
  place(e, s.a, s.b);
  part(e, 'title', {}).textContent = textOf(s.n);
  part(e, 'rect', { width: '100%', y: 100 - s.filled + '%', height: s.filled + '%' });
  if (s.label) part(e, 'text', s.c.includes('fault') ? { x: -3, y: '100%', dy: -6 } : { x: labelAt(s.a, s.b), y: 12 }).textContent = s.label;
  return e;
};
const blockOf = (s, x) => {
  const e = document.createElementNS(NS, 'rect');
  e.setAttribute('class', 'm ' + s.c); e.setAttribute('x', x); e.setAttribute('y', s.y); e.setAttribute('width', 2); e.setAttribute('height', s.h);
  e.classList.remove('b', 'q'); if (!isAbout(s)) e.classList.add('dim');
  return e;
};
const here = document.createElementNS(NS, 'rect');
here.setAttribute('class', 'here'); here.setAttribute('y', 0); here.setAttribute('height', '100%'); here.setAttribute('visibility', 'hidden');
plot.append(here);
const mark = () => {
  if (at === 0) return;
  here.setAttribute('visibility', 'visible');
  here.setAttribute('x', (at - 1) * width / slots);
  here.setAttribute('width', Math.max(2, width / slots));
};
const drawRuler = () => {
  const wanted = Math.max(1, slots * 60 / width);
  let step = 1;
  for (let k = 0; step < wanted; k++) step = [2, 5, 10][k % 3] * 10 ** Math.floor(k / 3);
  const shown = Math.ceil(run.clientWidth / 60) + 4, from = Math.max(0, Math.floor(run.scrollLeft * slots / width / step) - 1);
  ruler.replaceChildren();
  for (let k = from; k < from + shown && k * step < slots; k++) {
    const t = document.createElementNS(NS, 'text');
    t.setAttribute('class', 'number'); t.setAttribute('y', 14); t.setAttribute('x', k * step * width / slots);
    t.textContent = k * step + 1;
    ruler.append(t);
  }
};
const drawLarge = () => {
  const from = run.scrollLeft * slots / width, to = (run.scrollLeft + run.clientWidth) * slots / width;
  const filled = new Map(), drawn = [];
  for (const s of all) {
    if (s.b < from || s.a > to) continue;
    const x = s.a * width / slots;
    if ((s.b - s.a) * width / slots >= 2 && drawn.length < 6000) drawn.push(made(s));
    else if (!(filled.get(s.y) > x)) { filled.set(s.y, x + 2); drawn.push(blockOf(s, x)); }
  }
  live.replaceChildren(...drawn);
};
let waiting = false;
const draw = () => {
  plot.setAttribute('width', width + 20);
  if (kept) drawLarge(); else { each(all, s => { place(s.e, s.a, s.b); dim(s); }); showLabels(); }
  drawRuler(); mark();
};
const later = () => { if (!waiting) { waiting = true; requestAnimationFrame(() => { waiting = false; if (kept) drawLarge(); else showLabels(); drawRuler(); }); } };
const zoom = (factor, clientX) => {
  const box = run.getBoundingClientRect(), offset = names.getBoundingClientRect().width;
  const mid = clientX === undefined ? run.clientWidth / 2 : clientX - box.left;
  const slot = (run.scrollLeft + mid - offset) / width;
  width = Math.min(Math.max(width * factor, 200), slots * 300, 16000000);
  plot.setAttribute('width', width + 20);
  run.scrollLeft = slot * width - mid + offset;
  draw();
};
const say = n => { line.textContent = textOf(n); };
const source = byId('source') && JSON.parse(byId('source').textContent);
const side = document.createElement('aside'), script = document.createElement('pre');
const add = (parent, name, text) => { const e = document.createElement(name); e.textContent = text; parent.append(e); return e; };
const showLine = n => {
  if (!source) return;
  each(script.querySelectorAll('.chosen'), row => row.classList.remove('chosen'));
  const row = script.children[source.lines[n - 1] - 1];
  if (!row) return;
  row.classList.add('chosen');
  const top = row.offsetTop - script.scrollTop;
  if (top < 20 || top > script.clientHeight - 40) script.scrollTop = row.offsetTop - script.clientHeight / 2;
};
const goToLine = number => {
  for (let k = 0; k < slots; k++) {
    const n = (at + k) % slots + 1;
    if (source.lines[n - 1] === number) { go(n); return; }
  }
  line.textContent = 'no event of this run is of line ' + number;
};
const showStory = () => {
  add(side, 'h2', 'Why');
  const story = add(side, 'section', '');
  story.id = 'story';
  each(source.story.trimEnd().split('\n'), text => {
    const row = add(story, 'div', text), found = /^ *(\d+) \S+ /.exec(text);
    if (found && textOf(Number(found[1])) === text.trim()) { row.className = 'event'; row.addEventListener('click', () => go(Number(found[1]))); }
  });
};
const showSource = () => {
  if (!source) return;
  const both = document.createElement('div');
  both.id = 'both'; side.id = 'side'; script.id = 'script';
  run.before(both);
  both.append(run, side);
  if (source.story) showStory();
  add(side, 'h2', source.name);
  side.append(script);
  each(source.script.trimEnd().split('\n'), text => { add(script, 'div', text).dataset.n = script.children.length; });
  script.addEventListener('click', event => { const row = event.target.closest('[data-n]'); if (row) goToLine(Number(row.dataset.n)); });
};
const go = n => {
  at = Math.min(Math.max(n, 1), slots); say(at); mark(); showLine(at);
  const x = (at - 1) * width / slots, room = run.clientWidth - names.getBoundingClientRect().width;
  if (x < run.scrollLeft || x > run.scrollLeft + room - 20) run.scrollLeft = x - room / 2;
};
const pick = id => {
  about = about === id ? 0 : id;
  if (kept) drawLarge(); else each(all, dim);
  each(names.querySelectorAll('text'), t => t.classList.toggle('dim', about !== 0 && Number(t.dataset.o) !== about));
};
const shapeAt = event => event.target.closest ? event.target.closest('svg.s') : null;
plot.addEventListener('pointermove', event => { const s = shapeAt(event); if (s) say(Number(s.dataset.n)); });
let drag = null;
run.addEventListener('pointerdown', event => { if (event.pointerType === 'mouse' && event.button === 0) drag = { x: event.clientX, left: run.scrollLeft, moved: false }; });
addEventListener('pointermove', event => { if (drag) { const d = event.clientX - drag.x; if (Math.abs(d) > 4) drag.moved = true; if (drag.moved) run.scrollLeft = drag.left - d; } });
addEventListener('pointerup', () => setTimeout(() => { drag = null; }, 0));
run.addEventListener('click', event => {
  if (drag && drag.moved) return;
  const s = shapeAt(event), named = event.target.closest('text.lane');
  if (s) { go(Number(s.dataset.n)); pick(Number(s.dataset.r) || Number(s.dataset.o)); }
  else if (named) pick(Number(named.dataset.o));
  else pick(about);
});
run.addEventListener('wheel', event => { if (event.ctrlKey || event.altKey) { event.preventDefault(); zoom(event.deltaY < 0 ? 1.25 : 0.8, event.clientX); } }, { passive: false });
run.addEventListener('scroll', later);
addEventListener('resize', later);
let before = 0, leftBefore = 0;
addEventListener('beforeprint', () => { before = width; leftBefore = run.scrollLeft; width = 820; run.scrollLeft = 0; draw(); });
addEventListener('afterprint', () => { if (before) { width = before; before = 0; plot.setAttribute('width', width + 20); run.scrollLeft = leftBefore; draw(); } });
addEventListener('keydown', event => {
  if (event.target.tagName === 'INPUT') return;
  const step = { ArrowRight: 1, ArrowLeft: -1, PageDown: 20, PageUp: -20 }[event.key];
  if (step) { event.preventDefault(); go(at + step); }
  else if (event.key === 'Home') { event.preventDefault(); go(1); }
  else if (event.key === 'End') { event.preventDefault(); go(slots); }
  else if (event.key === '+') zoom(1.5);
  else if (event.key === '-') zoom(1 / 1.5);
  else if (event.key === 'Escape') pick(about);
});
const tools = byId('tools');
const button = (text, title, f) => { const b = document.createElement('button'); b.textContent = text; b.title = title; b.addEventListener('click', f); tools.append(b); };
button('\u2212', 'zoom out (key -)', () => zoom(1 / 1.5));
button('+', 'zoom in (key +)', () => zoom(1.5));
const room = () => Math.max(200, run.clientWidth - names.getBoundingClientRect().width - 24);
const fit = () => { width = Math.min(room(), slots * 90); draw(); };
button('all', 'the whole run in the window', fit);
button('\u2039', 'the event before (left arrow)', () => go(at - 1));
button('\u203a', 'the next event (right arrow)', () => go(at + 1));
const search = document.createElement('input');
search.type = 'search'; search.placeholder = 'search the trace'; search.setAttribute('aria-label', 'search the trace');
search.addEventListener('keydown', event => {
  if (event.key !== 'Enter' || search.value === '') return;
  textOf(1);
  for (let k = 1; k <= slots; k++) {
    const n = (at + k - 1 + slots) % slots + 1;
    if (textOf(n).includes(search.value)) { go(n); return; }
  }
  line.textContent = 'no event has ' + search.value;
});
tools.append(search);
tools.hidden = false;
showSource();
const hasFault = document.querySelector('header .last') !== null;
if (hasFault && first > room()) draw(); else fit();
if (hasFault) go(slots);
})();
"#;
