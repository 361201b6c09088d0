// The page: how it begins, how everything on it looks, and how it ends.
use crate::element;
use crate::element::attribute;
use say::out;

const WIDTH: u64 = 1220;

fn first(height: u64) -> bool {
    let size = attribute(b"<svg xmlns=\"http://www.w3.org/2000/svg\" width=\"", WIDTH);
    size & attribute(b" height=\"", height)
}

fn view(height: u64) -> bool {
    out::text(b" viewBox=\"0 0 ") & out::number(WIDTH) & attribute(b" ", height)
}

fn paper(height: u64) -> bool {
    let rect = attribute(b"<rect class=\"page\" width=\"", WIDTH);
    rect & attribute(b" height=\"", height) & element::end()
}

fn letters() -> bool {
    out::text(
        b"<style>
text { font: 11px \"DejaVu Sans Mono\", Menlo, Consolas, monospace; fill: #1c2733; }
.heading { font-size: 15px; font-weight: bold; }
.name { font-size: 10px; pointer-events: none; }
.end { text-anchor: end; }
.mid { text-anchor: middle; }
",
    )
}

fn areas() -> bool {
    out::text(
        b"rect, line, polygon, polyline { vector-effect: non-scaling-stroke; }
.page { fill: #ffffff; }
.row { fill: #f0f3f6; }
.grid { stroke: #d4dbe2; }
.stage { fill: #b9d0e8; stroke: #4f7396; stroke-width: 0.5px; }
.path { fill: #f6a04d; stroke: #9c4f06; stroke-width: 0.5px; }
.wrong { fill: #e8505b; stroke: #8c0f1a; stroke-width: 1px; }
",
    )
}

fn strokes() -> bool {
    out::text(
        b".finish { stroke: #1c2733; stroke-width: 1.5px; }
.new { stroke: #b3161f; stroke-width: 1.5px; stroke-dasharray: 8 4; }
.second { stroke: #6b3fa0; stroke-width: 1.5px; stroke-dasharray: 2 3; }
</style>
",
    )
}

pub fn begin(height: u64) -> bool {
    let size = first(height) & view(height) & out::text(b">\n");
    size & letters() & areas() & strokes() & paper(height)
}

// The end of the page, and of a picture within it.
pub fn end() -> bool {
    out::text(b"</svg>\n")
}
