//! The page: a tty in a browser (our profile). It draws what `tty` writes, by its definitions Tty and Reading,
//! and sends the bytes of keys that it reads. The text has no quotation mark and no backslash, so that the
//! literal is the page.

/// The SHA-256 of what is in the page's element `script`, in base64.
pub const SCRIPT_HASH: &str = "th1k1sUJOsE05LwhWv0gULaGTL/KDGXbSoaWZDi8pTM=";

/// The SHA-256 of what is in the page's element `style`, in base64.
pub const STYLE_HASH: &str = "UfnloE6u4KpOzA9eXp9MTtZ6Xa5GeuX3RtcEUmzyfQI=";

/// The page, in HTML.
pub const PAGE: &str = "<!DOCTYPE html>
<html lang=en translate=no>
<meta charset=utf-8>
<meta name=viewport content='width=device-width, initial-scale=1'>
<title>3270</title>
<style>
:root {
  color-scheme: dark light; --back: #101418; --plain: #d8dee4; --bright: #ffffff; --raised: #2a3138;
  --red: #ff8b82; --green: #56d364; --blue: #79c0ff; --columns: 80;
}
@media (prefers-color-scheme: light) {
  :root { --back: #ffffff; --plain: #24292f; --bright: #000000; --raised: #e4e8ec; }
  :root { --red: #a40e26; --green: #116329; --blue: #0550ae; }
}
html, body { margin: 0; height: 100%; background: var(--back); color: var(--plain); font: 14px sans-serif; }
body { display: flex; flex-direction: column; }
main { flex: 1 1 auto; min-height: 12em; }
main, #keys { overflow: auto; }
#terminal { position: relative; width: max-content; margin: 0 auto; padding: 4px; }
#screen { margin: 0; font: 8px/1.25 monospace; cursor: text; touch-action: manipulation; }
#screen div { height: 1.25em; white-space: pre; }
#screen .red { color: var(--red); } #screen .green { color: var(--green); } #screen .blue { color: var(--blue); }
#screen .bold { font-weight: bold; color: var(--bright); }
#screen .underlined { text-decoration: underline; text-underline-offset: 0.15em; }
#screen .cursor, #screen .selected { background: var(--plain); color: var(--back); }
#typed { position: absolute; bottom: 0; width: 1px; height: 1px; padding: 0; border: 0; opacity: 0; resize: none; }
#state { min-height: 1.3em; margin: 0; padding: 2px 8px; text-align: center; }
#said { position: absolute; width: 1px; height: 1px; overflow: hidden; clip-path: inset(50%); }
#keys { display: flex; flex-wrap: wrap; gap: 4px; justify-content: center; padding: 4px; max-height: 33%; }
button, input, select { min-width: 3.2em; padding: 4px 6px; background: var(--raised); color: var(--bright); }
button, input, select { border: 1px solid var(--plain); border-radius: 3px; font: 13px sans-serif; }
input { width: 6em; margin-right: 4px; }
dialog { width: 60em; max-width: 90vw; background: var(--back); color: var(--plain); }
dialog dl { columns: 17em; margin: 0 0 8px; } dialog kbd { white-space: nowrap; }
dialog dl div { display: flex; justify-content: space-between; break-inside: avoid; }
.lost #screen { outline: 2px dashed var(--red); }
.bell #screen { outline: 3px solid var(--bright); }
@media (forced-colors: active) {
  #screen .cursor, #screen .selected { forced-color-adjust: none; background: Highlight; color: HighlightText; }
}
@media print {
  html, body, main { display: block; height: auto; overflow: visible; }
  #keys, #state, dialog { display: none; }
  #screen { font-size: calc(95vw / (var(--columns) * 0.62)) !important; }
  #screen span { background: none !important; color: #000000 !important; }
}
</style>
<main>
<div id=terminal role=application aria-label='3270 screen' aria-describedby=hint>
<pre id=screen></pre>
<textarea id=typed aria-label=keyboard autocomplete=off autocapitalize=off spellcheck=false></textarea>
</div>
</main>
<p id=hint hidden>Ctrl-Alt-K shows the keys. Ctrl-Alt-B leads to the buttons, and Escape back to the screen.</p>
<p id=state></p>
<div id=said role=status></div>
<nav id=keys aria-label=keys></nav>
<dialog id=help aria-label='the keys'></dialog>
<noscript>The terminal needs JavaScript.</noscript>
<script>
'use strict';
const code = String.fromCharCode, ESC = code(27), CSI = ESC + '[';
const [terminal, screen, typed, state, said, keys, help] =
  ['terminal', 'screen', 'typed', 'state', 'said', 'keys', 'help'].map(name => document.getElementById(name));
function make(name, ...content) {
  const element = document.createElement(name);
  element.append(...content);
  return element;
}
// ---- A tty: characters, CUP, SGR and ED, as crates/tty/specs/Tty and Reading define them.
let rows, columns, grid, cursor, look, changed, awaited;
const plain = () => ({ colour: '', bold: '', underlined: '' });
function resize(newRows, newColumns) {
  [rows, columns, look] = [newRows, newColumns, plain()];
  screen.replaceChildren(...Array.from({ length: rows }, () => document.createElement('div')));
  cursor = { row: 0, column: 0 };
  erase();
  show();
  fit();
}
function erase() {
  const blank = { glyph: ' ', name: '' };
  grid = Array.from({ length: rows }, () => Array.from({ length: columns }, () => blank));
  changed = new Set(grid.keys());
}
function put(number) {
  const { row, column } = cursor;
  const cell = { glyph: code(number), name: Object.values(look).filter(it => it).join(' ') };
  if (row < rows && column < columns) grid[row][column] = cell;
  changed.add(row);
  cursor = { row, column: column + 1 };
}
const renditions = { 0: plain(), 1: { bold: 'bold' }, 4: { underlined: 'underlined' },
  31: { colour: 'red' }, 32: { colour: 'green' }, 34: { colour: 'blue' } };
function control(final, values) {
  if (final === 0x48 && values.length === 2)
    cursor = { row: Math.max(values[0] - 1, 0), column: Math.max(values[1] - 1, 0) };
  else if (final === 0x6D) values.forEach(it => look = { ...look, ...renditions[it] });
  else if (final === 0x4A && values.length === 1 && values[0] === 2) erase();
}
// What the tty awaits is a function: it takes the next byte, and returns what the tty awaits then.
const first = byte => {
  if (byte === 0x1B) return escaped;
  if (byte >= 0xC0) return next => (put((byte - 0xC0) * 64 + next - 0x80), first);
  if (byte === 0x07) ring();
  else if (byte >= 0x20 && byte < 0x7F) put(byte);
  return first;
};
const escaped = byte => byte === 0x5B ? parameter([], 0) : first;
const parameter = (before, value) => byte => {
  if (byte >= 0x30 && byte <= 0x39) return parameter(before, value * 10 + byte - 0x30);
  if (byte === 0x3B) return parameter([...before, value], 0);
  control(byte, [...before, value]);
  return first;
};
const read = bytes => bytes.forEach(byte => awaited = awaited(byte));
// ---- Fields: what is underlined is input. A field is named by the text to its left.
const isInput = cell => cell.name.includes('underlined');
const textOf = line => line.map(it => it.glyph).join('');
function fieldName(row, column) {
  const line = grid[row] ?? [];
  if (!line[column] || !isInput(line[column])) return '';
  const start = line.findLastIndex((cell, at) => at < column && !isInput(cell)) + 1;
  if (start === 0 && row > 0 && isInput(grid[row - 1].at(-1))) return fieldName(row - 1, columns - 1);
  const from = line.findLastIndex((cell, at) => at < start && isInput(cell)) + 1;
  return textOf(line.slice(from, start)).trim().split(/ {2,}/).at(-1).replace(/[ .:=>_-]+$/, '') || 'field';
}
// ---- What is shown: a line for each row, with a span for each run of characters of one look, in one for each field.
let isWaiting = false, isAhead = false, selection = null;
function show() {
  for (const row of changed.add(cursor.row)) if (row < rows) showRow(row);
  changed = new Set([cursor.row, rows - 1]);
}
// The status row as the page has it: with its own hint, the lock that it set itself, and the sign of type-ahead.
function statusRow(line) {
  const glyphs = Array.from(textOf(line).replace('ESC ? shows keys', 'Ctrl-Alt-K: keys'));
  if (isWaiting) glyphs.splice(16, 16, ...'X SYSTEM'.padEnd(16));
  if (isAhead && (isLocked() || !isLive)) glyphs[34] = 'T';
  return line.map((cell, column) => ({ ...cell, glyph: glyphs[column] }));
}
const reason = () => textOf(grid[rows - 1]).slice(16, 29).trim();
const isLocked = () => isWaiting || reason() === 'X SYSTEM';
function classOf(cell, row, column) {
  const { top, bottom, left, right } = selection ?? { top: 0, bottom: -1 };
  const isSelected = row >= top && row <= bottom && column >= left && column <= right;
  const isCursor = row === cursor.row && column === cursor.column;
  return [cell.name, isCursor ? 'cursor' : '', isSelected ? 'selected' : ''].filter(it => it).join(' ');
}
function showRow(row) {
  const line = row === rows - 1 ? statusRow(grid[row]) : grid[row], groups = [];
  line.forEach((cell, column) => {
    const aria = isInput(cell) ? { role: 'textbox', ariaLabel: fieldName(row, column) } : {};
    if (column === 0 || isInput(cell) !== isInput(line[column - 1])) groups.push(Object.assign(make('span'), aria));
    const group = groups.at(-1), className = classOf(cell, row, column);
    if (group.lastChild?.className !== className) group.append(Object.assign(make('span'), { className }));
    group.lastChild.append(cell.glyph);
  });
  screen.children[row].replaceChildren(...groups);
  screen.children[row].normalize();
}
function cellAt({ clientX, clientY }) {
  const { left, top, width, height } = screen.getBoundingClientRect();
  const within = (share, count) => Math.max(0, Math.min(count - 1, Math.floor(share * count)));
  return { row: within((clientY - top) / height, rows), column: within((clientX - left) / width, columns) };
}
function ring() {
  document.body.classList.add('bell');
  setTimeout(() => document.body.classList.remove('bell'), 300);
}
// ---- Size: the screen fits the window as it is without zoom. Zoom, and the buttons + and -, enlarge it.
const chosen = () => Number(localStorage.getItem('size')) || 1;
function fit() {
  const ratio = outerWidth / innerWidth, zoom = ratio > 1.05 ? ratio : 1;
  screen.style.fontSize = '100px';
  const box = screen.getBoundingClientRect();
  const size = Math.min((innerWidth - 10) * zoom / box.width, innerHeight * zoom * 0.8 / box.height) * 100;
  screen.style.fontSize = Math.max(4, Math.floor(size * chosen() * 10) / 10) + 'px';
  document.documentElement.style.setProperty('--columns', columns);
}
function enlarge(factor) {
  localStorage.setItem('size', factor ? Math.min(8, Math.max(0.25, chosen() * factor)) : 1);
  fit();
}
// ---- What is said, to who doesn't see it: news of the screen, why keys are refused, the field, and the state.
const summary = () => ({
  lines: grid.slice(0, rows - 1).map(line => textOf(line.map(it => isInput(it) ? { glyph: ' ' } : it)).trim()),
  field: fieldName(cursor.row, cursor.column), lock: reason(), at: cursor.row,
});
function changes(before, after) {
  const lines = after.lines.filter((line, row) => line && line !== before.lines[row]);
  const few = lines.length > 3 ? [lines[0], ...after.lines.slice(-2).filter(it => lines.includes(it))] : lines;
  const isOther = after.field !== before.field || after.at !== before.at;
  return [...few, after.lock === before.lock ? '' : after.lock, isOther ? after.field : ''].filter(it => it);
}
const say = words => words.length > 0 && (said.textContent = words.join('. '));
// ---- Keys: one table of what keys and buttons do: a name, the bytes that crates/tty reads, and keys.
// Option makes characters on a Mac, so that Ctrl is there what Alt is elsewhere.
const alt = /^(Mac|iP)/.test(navigator.platform) ? 'Ctrl-' : 'Alt-';
const [enter, newLine, tab] = [13, 10, 9].map(it => code(it));
const numbers = [15, 17, 18, 19, 20, 21, 23, 24], letters = ['P', 'Q', 'R', 'S'];
const functionBytes = [letters.map(it => ESC + 'O' + it), numbers.map(it => CSI + it + '~'),
  letters.map(it => CSI + '1;2' + it), numbers.map(it => CSI + it + ';2~')].flat();
const functionKeys = functionBytes.map((bytes, place) => ['PF' + (place + 1), bytes,
  (place < 12 ? 'F' : 'Shift-F') + (place % 12 + 1), ...{ 6: ['PageUp'], 7: ['PageDown'] }[place] ?? []]);
const table = [
  ['Enter', enter, 'Enter', 'KeypadEnter'], ['Clear', code(3), 'Pause', alt + 'C'],
  ['Reset', code(18), 'Escape', 'Ctrl-R'], ['Erase EOF', code(5), 'End', 'Ctrl-E'],
  ['Erase Input', code(21), alt + 'End', 'Ctrl-U'], ['New Line', newLine, 'Shift-Enter'], ['Tab', tab, 'Tab'],
  ['Back Tab', CSI + 'Z', 'Shift-Tab'], ['PA1', ESC + '1', alt + '1', alt + 'Insert'],
  ['PA2', ESC + '2', alt + '2', alt + 'Home'], ['PA3', ESC + '3', alt + '3'], ...functionKeys,
  ['Erase', code(127), 'Backspace'], ['Backspace', code(8), 'Shift-Backspace'], ['Delete', CSI + '3~', 'Delete'],
  ['Insert', CSI + '2~', 'Insert'], ['Home', CSI + 'H', 'Home'], ['Redraw', code(12), 'Ctrl-L'],
  ...['Up', 'Down', 'Right', 'Left'].map((name, at) => [name, CSI + 'ABCD'[at], 'Arrow' + name]),
];
const others = [
  ['Help', showKeys, 'Ctrl-Alt-K'], ['Buttons', () => keys.firstChild.focus(), 'Ctrl-Alt-B'],
  ['Larger', () => enlarge(1.1)], ['Smaller', () => enlarge(1 / 1.1)], ['Fit', () => enlarge(0)],
];
const actions = [...table, ...others], byKey = new Map(actions.flatMap(row => row.slice(2).map(key => [key, row])));
// The keymap of the server: words KEY=ACTION, by the names of crates/tty.
const bare = name => name.replace(/[^A-Za-z0-9]/g, '').toLowerCase();
const actionNamed = name => actions.find(([it]) => bare(it) === bare(name)) ?? ['Ignore', () => ring()];
const keyNamed = name => name.replace(/^(Up|Down|Left|Right)$/, 'Arrow$1').replace(/^Alt-(?=[A-Z]$)/, 'Alt-Shift-')
  .replace(/^Alt-[a-z]$/, it => 'Alt-' + it.at(-1).toUpperCase()).replace('Space', ' ').replace('Alt-', alt);
const useKeymap = words => words.forEach(word => {
  const [, key, action] = word.match(/^(.+)=(.+)$/);
  byKey.set(keyNamed(key), actionNamed(action));
});
const isAttention = name => /^(Enter|Clear|P[AF][0-9]+)$/.test(name);
// The name of a key: digits by their place on the keyboard, letters by the layout if it has Latin ones.
function nameOf({ key, code, ctrlKey, altKey, shiftKey }) {
  const isPlaced = /^Digit/.test(code) && !shiftKey || /^Key/.test(code) && !/^[a-z]$/i.test(key);
  const name = isPlaced ? code.at(-1) : key.length === 1 ? key.toUpperCase() : key;
  if (code === 'NumpadEnter' && !(ctrlKey || altKey || shiftKey)) return 'KeypadEnter';
  const shift = shiftKey && !/^[^A-Z]$/.test(name) ? 'Shift-' : '';
  return (ctrlKey ? 'Ctrl-' : '') + (altKey ? 'Alt-' : '') + shift + name;
}
// After a key that sends, the page locks until a drawing comes, unless keys are refused already.
function press([name, action]) {
  if (typeof action === 'function') return action();
  if (isAttention(name) && isWaiting) return refuse('The host has not answered yet.');
  const locks = isAttention(name) && !isOver && ['', 'X NO CODE', 'X PASTE CUT'].includes(reason());
  send(action);
  if (locks) [isWaiting, lockedAt] = [true, Date.now()];
  tell();
}
function onKey(event) {
  const isForBrowser = event.isComposing || event.metaKey || event.getModifierState('AltGraph');
  const row = isForBrowser ? undefined : byKey.get(nameOf(event));
  const isOutside = !terminal.contains(event.target) && event.target !== document.body;
  if (help.open || isOutside && event.key !== 'Escape') return;
  if (row === undefined) return void (event.ctrlKey || event.metaKey || typed.focus());
  event.preventDefault();
  typed.focus();
  if (!isOutside) press(row);
}
const onTyped = () => { send(typed.value); typed.value = ''; };
// A pasted text has the marks by which crates/tty knows it, and lets it end at the last field of the screen.
function paste(text) {
  const isTyped = it => it === newLine || it === tab || it >= ' ' && (it < code(127) || it > code(159));
  const lines = text.replaceAll(enter + newLine, newLine).replaceAll(enter, newLine);
  if (isLocked()) return refuse('Nothing can be pasted until the host has answered.');
  send(CSI + '200~', Array.from(lines).filter(isTyped).join(''), CSI + '201~');
}
function moveTo({ row, column }) {
  const steps = (count, more, less) => (CSI + (count < 0 ? less : more)).repeat(Math.abs(count));
  if (row < rows - 1) send(steps(row - cursor.row, 'B', 'A') + steps(column - cursor.column, 'C', 'D'));
}
function selectTo(from, to) {
  const [top, bottom] = [from.row, to.row].sort((a, b) => a - b);
  const [left, right] = [from.column, to.column].sort((a, b) => a - b);
  selection = top === bottom && left === right ? null : { top, bottom, left, right };
  changed = new Set(grid.keys());
  show();
}
const selected = () => grid.slice(selection.top, selection.bottom + 1)
  .map(line => textOf(line.slice(selection.left, selection.right + 1)).trimEnd()).join(newLine);
// ---- The operator: events of keyboard, mouse and clipboard; the buttons, the menu and the table of keys.
document.addEventListener('keydown', onKey);
typed.addEventListener('input', event => event.isComposing || onTyped());
typed.addEventListener('compositionend', onTyped);
document.addEventListener('paste', event => {
  if (event.target.localName === 'input') return;
  event.preventDefault();
  paste(event.clipboardData.getData('text'));
});
// A browser that has nothing to copy asks first whether there is something.
for (const kind of ['beforecopy', 'copy']) document.addEventListener(kind, event => {
  if (!selection) return;
  event.preventDefault();
  event.clipboardData?.setData('text/plain', selected());
});
screen.addEventListener('mousedown', event => {
  event.preventDefault();
  typed.focus();
  const from = cellAt(event), move = next => selectTo(from, cellAt(next));
  document.addEventListener('mousemove', move);
  document.addEventListener('mouseup', last => {
    document.removeEventListener('mousemove', move);
    move(last);
    if (!selection) moveTo(from);
  }, { once: true });
});
const onpointerdown = event => event.preventDefault();
const button = (name, onclick) => Object.assign(make('button', name), { onclick, onpointerdown });
const isOnButton = ([, , key]) => !/^(Back|Shift-Back|Arrow|Home|Delete|Ctrl-L|Ctrl-Alt-B)/.test(key);
const buttonOf = row => button(row[0], () => { typed.focus(); press(row); });
keys.append(...actions.filter(isOnButton).map(buttonOf));
const model = make('select', ...['2', '3', '4', '5'].map(it => make('option', it))), lu = make('input');
const menu = make('form', make('label', 'Model ', model), make('label', ' LU ', lu), make('button', 'New session'));
menu.addEventListener('submit', event => {
  event.preventDefault();
  const wanted = '#model=' + model.value + (lu.value ? '&lu=' + encodeURIComponent(lu.value) : '');
  if (location.hash === wanted) restart();
  else location.hash = wanted;
  typed.focus();
});
keys.append(menu);
function showKeys() {
  const keysOf = row => [...byKey].filter(([, it]) => it === row).flatMap(([key]) => [make('kbd', key), ' ']);
  const rows = actions.map(row => [row[0], keysOf(row)]).filter(([, keys]) => keys.length > 0);
  const entries = rows.map(([name, keys]) => make('div', make('dt', name), make('dd', ...keys)));
  help.replaceChildren(make('dl', ...entries), button('Close', () => help.close()));
  help.showModal();
}
help.addEventListener('close', () => typed.focus());
// ---- The session: `open MODEL [LU]` begins one, `resume TOKEN` resumes the one of this tab. With `heard COUNT` the
// server says, each 5 seconds, how many bytes of keys it has; those that it hasn't got are kept, and sent again.
const mostKept = 100000, silence = 6000, patience = 15000;
let socket, timer, wait = 500, isOver = false, isResuming = false, isLive = false, size = null;
let heardAt = 0, lockedAt = 0, problem = '', remark = '';
// They are stored only while the page is loaded again, since a password may be among them.
let [heard, unheard] = JSON.parse(sessionStorage.getItem('unheard')) ?? [null, []];
sessionStorage.removeItem('unheard');
function opening() {
  const asked = new URLSearchParams(location.hash.slice(1));
  [model.value, lu.value] = [asked.get('model') || '2', asked.get('lu') ?? ''];
  return ['open', asked.get('model') || '2', lu.value].join(' ').trim();
}
const encoded = text => new TextEncoder().encode(text), pieces = text => text.match(/[^]{1,1000}/gu) ?? [];
function send(...texts) {
  if (isOver) return void (texts[0] === enter && begin());
  if (unheard.join('').length >= mostKept) return refuse('No more keys are kept until the server answers.');
  if (isLocked() || !isLive) isAhead = true;
  note('');
  for (const piece of texts.flatMap(pieces)) {
    unheard.push(piece);
    if (isLive) socket.send(encoded(piece));
  }
}
const note = words => { remark = words; tell(); };
const refuse = why => { ring(); note(why); };
// What there is to say of the connection, or was noted last.
function news() {
  const seconds = since => Math.floor((Date.now() - since) / 1000);
  const kept = unheard.length > 0 ? ` ${unheard.length} keys are kept.` : '';
  if (isOver) return problem;
  if (!isLive) return (problem || 'Not connected: trying again.') + kept;
  if (Date.now() - heardAt > silence) return `No answer for ${seconds(heardAt)} s.` + kept;
  if (isWaiting && !remark && seconds(lockedAt) > 2) return `The host has not answered for ${seconds(lockedAt)} s.`;
  return remark;
}
function tell() {
  const [before, words] = [state.textContent, news()], uncounted = it => it.replace(/[0-9]+/g, '');
  state.textContent = words;
  if (uncounted(words) !== uncounted(before)) say([words]);
  document.body.classList.toggle('lost', isOver || !isLive);
  show();
}
function begin() {
  const address = new URL('terminal', location.href.split('#')[0]);
  address.protocol = address.protocol === 'https:' ? 'wss:' : 'ws:';
  clearTimeout(timer);
  // The socket that it had isn't listened to any more, nor closed: to the server that would be the end of the page.
  Object.assign(socket ?? {}, { onopen: null, onmessage: null, onclose: null });
  [isOver, isLive, awaited, socket] = [false, false, first, new WebSocket(address)];
  socket.binaryType = 'arraybuffer';
  socket.onopen = () => {
    const token = sessionStorage.getItem('token');
    isResuming = token !== null;
    socket.send(isResuming ? 'resume ' + token : opening());
  };
  socket.onmessage = ({ data }) => {
    heardAt = Date.now();
    return typeof data === 'string' ? notice(data) : draw(new Uint8Array(data));
  };
  socket.onclose = ({ code }) => {
    isLive = false;
    if (code === 1008) end('there is no such model or LU: ' + opening().slice(5));
    tell();
    if (isOver) return;
    timer = setTimeout(begin, problem ? 5000 : wait);
    wait = Math.min(wait * 2, 15000);
  };
}
const restart = () => { socket.close(); forget(); begin(); };
function forget() {
  sessionStorage.removeItem('token');
  if (unheard.length > 0) remark = `${unheard.length} keys of the session that ended are dropped.`;
  [heard, unheard, isWaiting, isAhead] = [null, [], false, false];
}
function end(why) {
  forget();
  [isOver, problem] = [true, `The session has ended: ${why}. Enter begins a new one.`];
}
// The screen stays as it is until the first drawing of a session comes.
function draw(bytes) {
  if (size) resize(...size);
  const before = summary();
  [size, isWaiting] = [null, false];
  read(bytes);
  isAhead = isAhead && isLocked();
  tell();
  screen.querySelector('.cursor')?.scrollIntoView({ block: 'nearest', inline: 'nearest' });
  typed.ariaLabel = summary().field || 'keyboard';
  say(changes(before, summary()));
}
function notice(text) {
  const [word, ...rest] = text.split(' ');
  if (word === 'size') [size, wait, isResuming, problem] = [rest.map(Number), 500, false, ''];
  else if (word === 'token') sessionStorage.setItem('token', rest[0]);
  else if (word === 'heard') take(Number(rest[0]));
  else if (word === 'keymap') useKeymap(rest);
  else if (word === 'busy') problem = 'All terminals are in use: trying again.';
  else if (word === 'ended' && isResuming) forget();
  else if (word === 'ended') end(rest.join(' '));
  tell();
}
function take(count) {
  heard = heard ?? count;
  const size = piece => encoded(piece).length;
  while (unheard.length > 0 && heard + size(unheard[0]) <= count) heard += size(unheard.shift());
  if (!isLive) unheard.forEach(piece => socket.send(encoded(piece)));
  isLive = true;
}
setInterval(() => {
  if (!isOver && isLive && Date.now() - heardAt > patience) begin();
  tell();
}, 1000);
addEventListener('resize', fit);
addEventListener('hashchange', restart);
addEventListener('pagehide', () => {
  socket.close();
  sessionStorage.setItem('unheard', JSON.stringify([heard, unheard]));
});
resize(25, 80);
begin();
typed.focus();
</script>
";
