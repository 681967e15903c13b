//! Points as a page: their picture, which a script zooms and searches.
ghost use Rattle.std.specs.Prelude.{IfOk, string_bytes};
ghost use Rattle.span_export.specs.Page.{IsPage};

use crate::picture::timeline_svg;
use span_times::{Point, Table};
use std::alloc::{AllocError, Global};

/// These points as a page in HTML for a browser: the picture that `timeline_svg` gives, this wide,
/// between `PAGE_HEAD` and `PAGE_TAIL`. The page shows it as wide as the window, whatever its own
/// width: that says how finely times are told apart, and so how far one can zoom; 1,000,000 is
/// fine enough for most.
///
/// The wheel zooms, a drag moves, and a double click shows a box as wide as the window. What is
/// searched for stays bright: the boxes and events whose names or fields have that text. Where the
/// mouse is, the page shows the title. The address says what is in sight, as
/// `#zoom=0.2-0.3&search=job` for a tenth of the time. The page is one file, asks for nothing from
/// outside, and has a dark look too.
pub fn timeline_page(
    alloc: Global,
    points: &[Point],
    table: Table<'_>,
    width: u32,
) -> Result<String, AllocError>
    ensures { IfOk result (λ page. IsPage (string_bytes page) table.entry points.now width) }
{
    let picture = timeline_svg(alloc, points, table, width)?;
    let mut page = String::from_str(alloc, PAGE_HEAD)?;
    page.push_str(picture.as_str())?;
    page.push_str(PAGE_TAIL)?;
    Ok(page)
}

/// How a page begins, up to the picture: its look.
pub const PAGE_HEAD: &str = r#"<!DOCTYPE html>
<html lang="en">
<head>
<meta charset="utf-8">
<meta name="viewport" content="width=device-width">
<meta http-equiv="Content-Security-Policy"
  content="default-src 'none'; style-src 'unsafe-inline'; script-src 'unsafe-inline'">
<title>Timeline</title>
<style>
:root{color-scheme:light dark;--ink:#222;--pale:#666;--paper:#fff;--line:#ddd;--dim:.2}
body{margin:0;background:var(--paper);color:var(--ink);font:13px sans-serif}
header{position:sticky;top:0;background:var(--paper)}
form{display:flex;flex-wrap:wrap;gap:8px;align-items:center;padding:8px 10px 0}
#search{width:16em}
#found,#help{color:var(--pale)}
#about{position:fixed;display:none;max-width:60ch;max-height:60vh;overflow:hidden;
  padding:4px 8px;white-space:pre-wrap;overflow-wrap:anywhere;pointer-events:none;
  background:var(--paper);border:1px solid var(--pale);box-shadow:0 1px 4px #0004}
main{cursor:grab;touch-action:pan-y;user-select:none}
svg{display:block}
main svg{display:none}
svg text{pointer-events:none;fill:var(--ink)}
svg .time{fill:var(--pale)}
svg .line{stroke:var(--line)}
svg .paper{fill:var(--paper)}
svg circle{stroke:var(--paper)}
.dim{opacity:var(--dim)}
.boxes rect:hover,.aim{stroke-width:3}
@media (prefers-color-scheme:dark){
:root{--ink:#ddd;--pale:#999;--paper:#181a1f;--line:#34373d;--dim:.3}
svg rect{fill:#33363d;stroke:#888}
svg rect.ERROR{fill:#6b2326;stroke:#e0696c}
svg rect.WARN{fill:#5f4713;stroke:#d9a441}
svg rect.INFO{fill:#23502f;stroke:#5fb878}
svg rect.DEBUG{fill:#1f4363;stroke:#5fa3d9}
svg rect.TRACE{fill:#3d3f48;stroke:#9a9dab}
svg circle.ERROR{fill:#e0696c}
svg circle.WARN{fill:#d9a441}
svg circle.INFO{fill:#5fb878}
svg circle.DEBUG{fill:#5fa3d9}
svg circle.TRACE{fill:#9a9dab}
}
</style>
<noscript><style>main{overflow:auto}main svg{display:block}</style></noscript>
</head>
<body>
<header>
<form>
<input id="search" type="search" placeholder="Search" aria-label="Search" autocomplete="off">
<output id="found"></output>
<button type="button" id="in" aria-label="Zoom in">+</button>
<button type="button" id="out" aria-label="Zoom out">−</button>
<button type="button" id="whole">Whole</button>
<span id="help">wheel: zoom · drag: move · Enter: next found</span>
</form>
</header>
<main>
"#;

/// How a page goes on behind the picture, to the end: its script.
pub const PAGE_TAIL: &str = r#"</main>
<output id="about"></output>
<script>
'use strict'
// What a picture leaves free: at the left for lanes' names, at the right, at the top for its axis.
const LEFT = 72, RIGHT = 24, TOP = 48
const at = id => document.getElementById(id)
const main = document.querySelector('main'), header = document.querySelector('header')
const picture = main.querySelector('svg'), search = at('search'), about = at('about')
const number = (node, part) => +node.getAttribute(part)
const set = (node, parts) => {
  for (const part in parts) node.setAttribute(part, parts[part])
  return node
}
const make = (name, parts) =>
  set(document.createElementNS('http://www.w3.org/2000/svg', name), parts)
const end = number(picture, 'width') - RIGHT, all = end - LEFT
const height = number(picture, 'height') - TOP

// Each box and mark: where it is, and what its title says. They leave the picture, and those in
// sight come back.
const shapes = [...picture.querySelectorAll('title')].map(title => {
  const group = title.parentNode, box = group.querySelector('rect'), node = box || group
  const text = title.textContent, name = text.slice(0, text.lastIndexOf('\n'))
  const shape = { node, box, text, name, level: node.getAttribute('class'), found: true }
  shape.x = number(node, box ? 'x' : 'cx')
  shape.y = number(node, box ? 'y' : 'cy')
  shape.width = box ? number(box, 'width') : 0
  title.remove()
  group.remove()
  return node.shape = shape
})

// How many nanoseconds there are to a step of the picture, by the last line of its axis.
const units = [[1e9, ' s'], [1e6, ' ms'], [1e3, ' µs'], [1, ' ns']]
const last = [...picture.querySelectorAll('.time')].pop()
const unit = last && units.find(unit => last.textContent.endsWith(unit[1]))
const step = unit ? parseFloat(last.textContent) * unit[0] / (number(last, 'x') - LEFT) : 0

// What the colours mean stays at the top, with an axis of the page's own.
const axis = make('g'), lines = make('g'), layer = make('g', { class: 'boxes' })
for (const node of picture.querySelectorAll('.time, .time + .line')) node.remove()
const head = make('svg', { height: TOP })
head.append(...picture.querySelectorAll('rect:not(.paper), text:not(.lane), circle'), axis)
header.append(head)
const lanes = [...picture.querySelectorAll('.line')]
picture.append(lines, layer)

// What part of the picture is in sight, and how many pixels a step takes.
let from = LEFT, to = end, scale = 1, wide = innerWidth
const place = x => LEFT + (x - from) * scale

// As much of a name as there is room for.
const pen = document.createElement('canvas').getContext('2d')
pen.font = '12px sans-serif'
const fit = (shape, room) => {
  if (room < 12) return ''
  const name = shape.name.slice(0, 400)
  shape.long ??= pen.measureText(name).width
  if (shape.long <= room) return name
  const count = Math.floor(name.length * room / shape.long) - 1
  return count < 2 ? '' : name.slice(0, count) + '…'
}

// Shows a box or mark, unless it is out of sight, or others of its row hide it.
const put = (shape, ends) => {
  const left = Math.max(place(shape.x), LEFT)
  const right = Math.min(place(shape.x + shape.width), wide)
  const until = Math.max(right, left + 1)
  if (left > wide || right < LEFT || until < ends.get(shape.y) + 1) return
  ends.set(shape.y, until)
  const look = shape.level + (shape.found ? '' : ' dim') + (shape === aim ? ' aim' : '')
  if (look !== shape.look) set(shape.node, { class: shape.look = look })
  layer.append(shape.node)
  if (!shape.box) return set(shape.node, { cx: left })
  set(shape.box, { x: left, width: until - left })
  const label = fit(shape, until - left - 10)
  if (!label) return
  shape.label ??= make('text', { y: shape.y + 14 })
  shape.label.textContent = label
  layer.append(set(shape.label, { x: left + 5, class: shape.found ? '' : 'dim' }))
}

// Draws lines at round times, at least 110 pixels apart.
const rule = () => {
  const least = 110 / scale * step, power = 10 ** Math.max(Math.floor(Math.log10(least)), 0)
  const gap = [1, 2, 5, 10].find(times => times * power >= least) * power
  const [size, name] = units.find(unit => gap % unit[0] === 0)
  for (let count = Math.ceil((from - LEFT) * step / gap); ; count++) {
    const x = Math.round(place(LEFT + count * gap / step))
    if (!(x <= place(to))) return
    axis.append(make('text', { class: 'time', x, y: 42 }))
    axis.lastChild.textContent = count * gap / size + name
    lines.append(make('path', { class: 'line', d: `M${x}.5 ${TOP}V${TOP + height}` }))
  }
}

let due = 0, later = 0
const draw = () => {
  due = 0
  wide = document.documentElement.clientWidth
  scale = Math.max(wide - LEFT - RIGHT, 100) / (to - from)
  set(head, { width: wide })
  set(picture, { width: wide, height, viewBox: `0 ${TOP} ${wide} ${height}` })
  for (const lane of lanes) set(lane, { d: lane.getAttribute('d').replace(/H.*/, 'H' + wide) })
  for (const part of [axis, lines, layer]) part.replaceChildren()
  const above = scrollY + TOP - 100, below = above + innerHeight + 200
  const rows = shapes.filter(shape => shape.y > above && shape.y < below)
  for (const found of [false, true]) {
    const ends = new Map()
    for (const shape of rows) if (shape.found === found) put(shape, ends)
  }
  if (step) rule()
}

// Shows a title where the mouse is.
const tell = (shape, event) => {
  about.style.display = shape ? 'block' : 'none'
  if (!shape) return
  about.textContent = shape.text
  about.style.left = 0
  const left = Math.min(event.clientX + 12, wide - about.offsetWidth - 8)
  const above = event.clientY - about.offsetHeight - 8, below = event.clientY + 18
  const fits = below + about.offsetHeight <= innerHeight || above < 0
  about.style.left = Math.max(left, 8) + 'px'
  about.style.top = (fits ? below : above) + 'px'
}

// The address says what is in sight, so that it can be linked.
const keep = () => {
  const parts = new URLSearchParams(), part = x => ((x - LEFT) / all).toFixed(7)
  if (to - from < all) parts.set('zoom', part(from) + '-' + part(to))
  if (search.value) parts.set('search', search.value)
  try {
    history.replaceState(null, '', '#' + parts)
  } catch {
    // A page within another may have no address of its own.
  }
}
const change = () => {
  tell(null)
  due ||= requestAnimationFrame(draw)
  clearTimeout(later)
  later = setTimeout(keep, 400)
}

// Shows this part, or where it is too small or too large another, with the point in its place.
const show = (a, b, point = (a + b) / 2) => {
  const span = Math.min(Math.max(b - a, wide / 64), all)
  from = Math.min(Math.max(point - (point - a) * span / (b - a), LEFT), end - span)
  to = from + span
  change()
}
const zoom = (times, x) => {
  const point = from + (x - LEFT) / scale
  show(point - (point - from) * times, point + (to - point) * times, point)
}
const move = pixels => show(from + pixels / scale, to + pixels / scale)

let aim = null, next = 0
const find = () => {
  const text = search.value.toLowerCase()
  for (const shape of shapes) shape.found = shape.name.toLowerCase().includes(text)
  const count = shapes.filter(shape => shape.found).length
  at('found').textContent = text ? `${count} of ${shapes.length}` : ''
  aim = null
  next = 0
  change()
}
const seek = () => {
  const found = search.value ? shapes.filter(shape => shape.found) : []
  if (!found.length) return
  aim = found[next % found.length]
  next = next % found.length + 1
  at('found').textContent = `${next} of ${found.length}`
  const half = Math.min(to - from, Math.max(aim.width * 8, all / 1000)) / 2
  const middle = aim.x + aim.width / 2
  show(middle - half, middle + half)
  scrollTo({ top: aim.y - innerHeight / 2 })
}
const read = () => {
  const parts = new URLSearchParams(location.hash.slice(1))
  const [a, b] = (parts.get('zoom') || '0-1').split('-').map(Number)
  search.value = parts.get('search') || ''
  find()
  if (0 <= a && a < b && b <= 1) show(LEFT + a * all, LEFT + b * all)
  else show(LEFT, end)
}

let held = null
main.addEventListener('pointerdown', event => {
  if (event.button === 0) held = event
})
for (const over of ['pointerup', 'pointercancel']) addEventListener(over, () => { held = null })
addEventListener('pointermove', event => {
  if (!held) return tell(event.target.shape, event)
  if (event.pointerType === 'mouse') scrollBy(0, held.clientY - event.clientY)
  move(held.clientX - event.clientX)
  held = event
})
main.addEventListener('dblclick', event => {
  const { shape } = event.target
  if (shape) show(shape.x - shape.width / 20, shape.x + shape.width * 1.05)
})
main.addEventListener('wheel', event => {
  event.preventDefault()
  const { deltaX, deltaY } = event, times = event.deltaMode ? 20 : 1
  if (event.shiftKey || Math.abs(deltaX) > Math.abs(deltaY)) move((deltaX || deltaY) * times)
  else zoom(Math.exp(deltaY * times / 500), event.clientX)
}, { passive: false })

const middle = () => place((from + to) / 2)
const keys = {
  '+': () => zoom(.5, middle()), '-': () => zoom(2, middle()), 0: () => show(LEFT, end),
  ArrowLeft: () => move(-100), ArrowRight: () => move(100), '/': () => search.focus(),
}
addEventListener('keydown', event => {
  if (event.target === search || event.ctrlKey || event.metaKey || !keys[event.key]) return
  event.preventDefault()
  keys[event.key]()
})
at('in').addEventListener('click', keys['+'])
at('out').addEventListener('click', keys['-'])
at('whole').addEventListener('click', keys[0])
search.addEventListener('input', find)
document.forms[0].addEventListener('submit', event => {
  event.preventDefault()
  seek()
})
for (const moved of ['resize', 'scroll']) addEventListener(moved, change)
addEventListener('hashchange', read)
main.style.minHeight = `calc(100vh - ${header.offsetHeight}px)`
picture.style.display = 'block'
read()
</script>
</body>
</html>
"#;
