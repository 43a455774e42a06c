//! The style of a picture, and the parts of its legend. Each part has a place of its own.

/// The looks of the elements, in light and dark, and the heads of the arrows.
pub(crate) const STYLE: &[u8] = b"<style type=\"text/css\">
.paper{fill:#ffffff}
text{font-family:\"DejaVu Sans Mono\",Menlo,Consolas,monospace;font-size:13px;fill:#1f2328}
.place{font-size:10px;fill:#59636e;text-anchor:middle}
.name{font-weight:bold}
.sub{font-size:10px}
.guide{fill:none;stroke:#d1d9e0;stroke-width:1}
.span{fill:none;stroke:#818b98;stroke-width:3}
g text{text-anchor:middle}
.read rect{fill:#ddf4ff;stroke:#54aeff}
.write rect{fill:#fff8c5;stroke:#9a6700}
.commit rect{fill:#dafbe1;stroke:#1a7f37}
.abort rect{fill:#e6eaef;stroke:#59636e;stroke-dasharray:3 2}
.in-cycle rect{stroke:#cf222e;stroke-width:3;stroke-dasharray:none}
.in-violation rect{stroke:#bc4c00;stroke-width:3;stroke-dasharray:none}
polyline{fill:none;stroke-linejoin:round}
.reads{stroke:#0969da;stroke-width:1.5;marker-end:url(#reads-head)}
.undone{stroke:#80b3f0;stroke-width:1.5;stroke-dasharray:5 3;marker-end:url(#undone-head)}
.cycle{stroke:#cf222e;stroke-width:3;marker-end:url(#cycle-head)}
.violation{stroke:#bc4c00;stroke-width:2.5;stroke-dasharray:7 3;marker-end:url(#violation-head)}
#reads-head path{fill:#0969da}
#undone-head path{fill:#80b3f0}
#cycle-head path{fill:#cf222e}
#violation-head path{fill:#bc4c00}
.words text{text-anchor:start}
@media (prefers-color-scheme:dark){
.paper{fill:#0d1117}
text{fill:#f0f6fc}
.place{fill:#9198a1}
.guide{stroke:#3d444d}
.span{stroke:#656c76}
.read rect{fill:#0c2d6b;stroke:#388bfd}
.write rect{fill:#4b2900;stroke:#d29922}
.commit rect{fill:#04260f;stroke:#3fb950}
.abort rect{fill:#2a313c;stroke:#9198a1}
.in-cycle rect{stroke:#f85149}
.in-violation rect{stroke:#f0883e}
.reads{stroke:#58a6ff}
.undone{stroke:#316dca}
.cycle{stroke:#f85149}
.violation{stroke:#f0883e}
#reads-head path{fill:#58a6ff}
#undone-head path{fill:#316dca}
#cycle-head path{fill:#f85149}
#violation-head path{fill:#f0883e}
}
</style>
<defs>
<marker id=\"reads-head\" markerUnits=\"userSpaceOnUse\" markerWidth=\"10\" markerHeight=\"8\" refX=\"9\" refY=\"4\" orient=\"auto\"><path d=\"M0,0 L10,4 L0,8 z\"/></marker>
<marker id=\"undone-head\" markerUnits=\"userSpaceOnUse\" markerWidth=\"10\" markerHeight=\"8\" refX=\"9\" refY=\"4\" orient=\"auto\"><path d=\"M0,0 L10,4 L0,8 z\"/></marker>
<marker id=\"cycle-head\" markerUnits=\"userSpaceOnUse\" markerWidth=\"12\" markerHeight=\"10\" refX=\"9\" refY=\"5\" orient=\"auto\"><path d=\"M0,0 L12,5 L0,10 z\"/></marker>
<marker id=\"violation-head\" markerUnits=\"userSpaceOnUse\" markerWidth=\"12\" markerHeight=\"10\" refX=\"9\" refY=\"5\" orient=\"auto\"><path d=\"M0,0 L12,5 L0,10 z\"/></marker>
</defs>
";

/// What a mark of a read means.
pub(crate) const READS: &[u8] =
    b"<g class=\"read\"><rect width=\"40\" height=\"20\" rx=\"5\"/><text x=\"20\" y=\"15\">r[x]</text></g>
<g class=\"words\"><text x=\"48\" y=\"15\">read</text></g>
";

/// What a mark of a write means.
pub(crate) const WRITES: &[u8] =
    b"<g class=\"write\"><rect x=\"148\" width=\"40\" height=\"20\" rx=\"5\"/><text x=\"168\" y=\"15\">w[x]</text></g>
<g class=\"words\"><text x=\"196\" y=\"15\">write</text></g>
";

/// What a mark of a commit means.
pub(crate) const COMMITS: &[u8] =
    b"<g class=\"commit\"><rect x=\"396\" width=\"24\" height=\"20\" rx=\"5\"/><text x=\"408\" y=\"15\">c</text></g>
<g class=\"words\"><text x=\"436\" y=\"15\">commit</text></g>
";

/// What a mark of an abort means.
pub(crate) const ABORTS: &[u8] =
    b"<g class=\"abort\"><rect x=\"560\" width=\"24\" height=\"20\" rx=\"5\"/><text x=\"572\" y=\"15\">a</text></g>
<g class=\"words\"><text x=\"600\" y=\"15\">abort</text></g>
";

/// What a line from a write to a read means.
pub(crate) const READS_FROM: &[u8] = b"<polyline class=\"reads\" points=\"0,42 32,42\"/>
<g class=\"words\"><text x=\"40\" y=\"46\">reads from</text></g>
";

/// The same, where the writer aborts.
pub(crate) const READS_FROM_ABORTED: &[u8] = b"<polyline class=\"undone\" points=\"148,42 180,42\"/>
<g class=\"words\"><text x=\"188\" y=\"46\">from one that aborts</text></g>
";

/// What a line of the cycle means.
pub(crate) const CYCLE: &[u8] = b"<polyline class=\"cycle\" points=\"396,42 428,42\"/>
<g class=\"words\"><text x=\"436\" y=\"46\">the cycle</text></g>
";

/// What a line of a violation means.
pub(crate) const VIOLATION: &[u8] = b"<polyline class=\"violation\" points=\"560,42 592,42\"/>
<g class=\"words\"><text x=\"600\" y=\"46\">first violation</text></g>
";
