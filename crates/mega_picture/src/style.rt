//! What the marks and lines of a page look like: its style sheet and its shapes.

/// The colours of a light and of a dark page, of lines, labels and bands, and of positions.
pub const STYLE: &str = "<style>
:root{--paper:#fff;--ink:#1b1d21;--dim:#6b7280;--pale:#dfe4ea;--alarm:#b3261e;--level:36%}
@media(prefers-color-scheme:dark){:root{--paper:#15171b;--ink:#eceef1;--dim:#9aa3af;--pale:#343a44;--alarm:#ff8a80;--level:68%}}
text{font:11px ui-monospace,SFMono-Regular,Menlo,Consolas,'DejaVu Sans Mono',monospace;fill:var(--ink);stroke:var(--paper);stroke-width:3px;stroke-linejoin:round;paint-order:stroke}
.page{fill:var(--paper)}
.name{font-weight:bold;font-size:13px;text-anchor:middle}
.e{text-anchor:end}
.n{fill:var(--dim);text-anchor:end;font-size:9px}
.up{fill:var(--ink)}
.serves{fill:var(--pale);stroke:var(--dim);stroke-width:1}
.valid rect{fill:var(--dim)}
.invalid rect{fill:none;stroke:var(--alarm);stroke-width:1;stroke-dasharray:2 2}
path{fill:none;stroke:currentColor;stroke-width:1.4}
.taken path{marker-end:url(#head)}
.lost path{stroke-dasharray:7 3}
.fades path{stroke-dasharray:18 3 14 4 11 5 8 6 6 7 4 8 3 9 2 10 1 99999}
.again path{stroke-width:1;stroke-dasharray:2 3;marker-end:url(#head)}
.p0{color:var(--dim)}
.mark.p0{color:var(--ink)}
.p1{color:hsl(212,80%,var(--level))}
.p2{color:hsl(18,85%,var(--level))}
.p3{color:hsl(140,65%,var(--level))}
.p4{color:hsl(285,60%,var(--level))}
.p5{color:hsl(42,90%,var(--level))}
.p6{color:hsl(180,75%,var(--level))}
.p7{color:hsl(335,70%,var(--level))}
.p8{color:hsl(80,65%,var(--level))}
.p9{color:hsl(250,65%,var(--level))}
.p10{color:hsl(0,70%,var(--level))}
.p11{color:hsl(160,80%,var(--level))}
.p12{color:hsl(305,55%,var(--level))}
</style>
";

/// The shapes of marks, each around its own origin, and the head of an arrow.
pub const SHAPES: &str = "<defs>
<marker id=\"head\" viewBox=\"0 0 9 8\" refX=\"9\" refY=\"4\" markerWidth=\"9\" markerHeight=\"8\" markerUnits=\"userSpaceOnUse\" orient=\"auto\"><path d=\"M0 0L9 4L0 8z\" style=\"fill:var(--ink);stroke:none\"/></marker>
<path id=\"start\" d=\"M-6 -5H6L0 5z\" style=\"fill:var(--ink)\"/>
<path id=\"crash\" d=\"M-8 -8L8 8M-8 8L8 -8\" style=\"stroke:var(--alarm);stroke-width:3.5\"/>
<g id=\"tick\"><circle r=\"5.5\" style=\"fill:var(--paper);stroke:var(--ink);stroke-width:1.3\"/><path d=\"M0 -3.5V0H3\"/></g>
<path id=\"begin\" d=\"M-5 -6L7 0L-5 6z\" style=\"fill:var(--paper);stroke-width:1.6\"/>
<path id=\"answer\" d=\"M-6 -6H6V6H-6z\" style=\"fill:var(--ink)\"/>
<circle id=\"taken\" r=\"2.4\" style=\"fill:var(--ink)\"/>
<path id=\"lost-left\" d=\"M-22 -5L-12 5M-22 5L-12 -5\" style=\"stroke:var(--alarm);stroke-width:2.4\"/>
<path id=\"lost-right\" d=\"M12 -5L22 5M12 5L22 -5\" style=\"stroke:var(--alarm);stroke-width:2.4\"/>
<circle id=\"unsent\" r=\"4.5\" style=\"fill:var(--paper);stroke:var(--ink);stroke-width:1.3;stroke-dasharray:2 2\"/>
<g id=\"grant\"><path d=\"M-3 -2V-5A3 3 0 0 1 3 -5V-2\"/><path d=\"M-5 -2H5V6H-5z\" style=\"fill:var(--ink)\"/></g>
<g id=\"lapse\"><path d=\"M-3 -2V-5A3 3 0 0 1 3 -6\"/><path d=\"M-5 -2H5V6H-5z\" style=\"fill:var(--paper)\"/></g>
<g id=\"counts\"><path d=\"M-6 -6H6V6H-6z\" style=\"fill:var(--paper)\"/><path d=\"M-4 0H4M0 -4V4\" style=\"stroke-width:2\"/></g>
<g id=\"forgets\"><path d=\"M-6 -6H6V6H-6z\" style=\"fill:var(--paper)\"/><path d=\"M-4 0H4\" style=\"stroke-width:2\"/></g>
<path id=\"serving\" d=\"M-8 5V-3H8V5\" style=\"stroke-width:2\"/>
<path id=\"lost\" d=\"M-8 -5V3H8V-5\" style=\"stroke-width:2;stroke:var(--alarm)\"/>
<g id=\"valid\"><path d=\"M-6 0L-2 5L6 -5\" style=\"stroke:var(--paper);stroke-width:6\"/><path d=\"M-6 0L-2 5L6 -5\" style=\"stroke-width:2.2\"/></g>
<g id=\"invalid\"><circle r=\"5.5\" style=\"fill:var(--paper);stroke:var(--alarm);stroke-width:1.6\"/><path d=\"M-4 4L4 -4\" style=\"stroke:var(--alarm)\"/></g>
<circle id=\"decide\" r=\"6\" style=\"fill:currentColor;stroke:var(--paper);stroke-width:1\"/>
<circle id=\"apply\" r=\"5\" style=\"fill:var(--paper);stroke:currentColor;stroke-width:2.6\"/>
<path id=\"cut\" d=\"M0 8H4000\" style=\"stroke:var(--dim);stroke-dasharray:1 4\"/>
<path id=\"unsafe\" d=\"M0 8H4000\" style=\"stroke:var(--alarm);stroke-width:2;stroke-dasharray:12 4 2 4\"/>
</defs>
";
