//! What every drawing has: its style sheet, its patterns and its legend.

/// The style sheet, and what it names.
///
/// Colours are told apart by who doesn't see red and green too: blue, light blue, yellow and
/// vermilion differ in how light they are, and each has its letter.
pub(crate) const STYLE: &str = "<style>
text{font:11px ui-sans-serif,system-ui,sans-serif;fill:#1d2733}
.m{text-anchor:middle}
.t{font-weight:700}
.s{font-size:10px}
.note{font-size:12px}
.paper{fill:#fff}
.i{fill:#0b5fa5}.p{fill:#8fc7f0}.b{fill:#f2d35c}.f{fill:#c7361b}
.n{fill:none;stroke:#68737f;stroke-dasharray:3 2}
.on-i,.on-f{fill:#fff}.on-p,.on-b{fill:#14202b}.on-n{fill:#4a5560}
.l0,.l1{fill:none;stroke-width:1.2;stroke-opacity:.7}
.l0{stroke:#0b5fa5}.l1{stroke:#b8570a}
.d0{fill:#0b5fa5}.d1{fill:#b8570a}
.far{stroke-dasharray:5 3}
.way{fill:none;stroke:#b9c2cc}
.begin{fill:none;stroke:#6b4fa0;stroke-width:1.5;stroke-dasharray:1 3;stroke-linecap:round}
.why{font-weight:600;fill:#c7361b;paint-order:stroke;stroke:#fff;stroke-width:3px;pointer-events:none}
.none{fill:#4a5560}
.hatch,.disc,.diamond{display:none;pointer-events:none}
.altered>.hatch{display:inline;fill:url(#hatch)}
.rung{stroke:#14202b;stroke-opacity:.35;stroke-width:1.5}
.stayed>.disc{display:inline;fill:#14202b;stroke:#fff}
.pending>.diamond{display:inline;fill:#fff;stroke:#14202b;stroke-width:1.3}
.u:hover .box{stroke:#14202b;stroke-width:2}
.u:hover .l0,.u:hover .l1{stroke-width:2.5;stroke-opacity:1}
@media (prefers-color-scheme:dark){
text{fill:#dfe6ee}
.paper{fill:#12181f}
.i{fill:#4d9be0}.p{fill:#a9d6f5}.b{fill:#e8c94f}.f{fill:#ff7a5c}.n{stroke:#97a3af}
.on-i,.on-p,.on-b,.on-f{fill:#0b1117}.on-n{fill:#b6c1cc}
.l0{stroke:#62b0f2}.l1{stroke:#f0a04b}.d0{fill:#62b0f2}.d1{fill:#f0a04b}
.way{stroke:#4a5663}
.begin{stroke:#b9a0ec}
.why{fill:#ff8f75;stroke:#12181f}.none{fill:#b6c1cc}
.u:hover .box{stroke:#fff}
}
</style>
<defs><pattern id=\"hatch\" width=\"6\" height=\"6\" patternUnits=\"userSpaceOnUse\" patternTransform=\"rotate(45)\"><path class=\"rung\" d=\"M1 0V6\"/></pattern></defs>
<rect class=\"paper\" width=\"100%\" height=\"100%\"/>
";

/// The legend.
pub(crate) const LEGEND: &str = "<g transform=\"translate(16 14)\">
<rect class=\"i\" width=\"16\" height=\"16\" rx=\"3\"/><text class=\"m t on-i\" x=\"8\" y=\"12\">I</text><text class=\"note\" x=\"22\" y=\"12\">intra</text>
<rect class=\"p\" x=\"66\" width=\"16\" height=\"16\" rx=\"3\"/><text class=\"m t on-p\" x=\"74\" y=\"12\">P</text><text class=\"note\" x=\"88\" y=\"12\">predicted</text>
<rect class=\"b\" x=\"158\" width=\"16\" height=\"16\" rx=\"3\"/><text class=\"m t on-b\" x=\"166\" y=\"12\">B</text><text class=\"note\" x=\"180\" y=\"12\">bipredicted</text>
<rect class=\"f\" x=\"260\" width=\"16\" height=\"16\" rx=\"3\"/><text class=\"m t on-f\" x=\"268\" y=\"12\">!</text><text class=\"note\" x=\"282\" y=\"12\">fault</text>
<rect class=\"n\" x=\"324\" width=\"16\" height=\"16\" rx=\"3\"/><text class=\"m t on-n\" x=\"332\" y=\"12\">-</text><text class=\"note\" x=\"346\" y=\"12\">no picture</text>
<path class=\"l1\" d=\"M424 14C424 -2 450 -2 450 14\"/><text class=\"note\" x=\"456\" y=\"12\">list 1</text>
<path class=\"l0\" d=\"M502 3C502 19 528 19 528 3\"/><text class=\"note\" x=\"534\" y=\"12\">list 0</text>
<path class=\"l0 far\" d=\"M580 3C580 19 606 19 606 3\"/><text class=\"note\" x=\"612\" y=\"12\">long-term</text>
<path class=\"begin\" d=\"M684 0V16\"/><text class=\"note\" x=\"692\" y=\"12\">a period begins</text>
";

/// What the legend has more where edits were made.
pub(crate) const EDITS_LEGEND: &str =
    "<g class=\"altered\"><rect class=\"p\" x=\"796\" width=\"16\" height=\"16\" rx=\"3\"/><rect class=\"hatch\" x=\"796\" width=\"16\" height=\"16\" rx=\"3\"/><text class=\"note\" x=\"818\" y=\"12\">altered</text></g>
<g class=\"stayed\"><rect class=\"p\" x=\"880\" width=\"16\" height=\"16\" rx=\"3\"/><circle class=\"disc\" cx=\"888\" cy=\"8\" r=\"3\"/><text class=\"note\" x=\"902\" y=\"12\">picture stayed</text></g>
<g class=\"pending\"><rect class=\"p\" x=\"998\" width=\"16\" height=\"16\" rx=\"3\"/><path class=\"diamond\" d=\"M1006 4l4 4l-4 4l-4 -4z\"/><text class=\"note\" x=\"1020\" y=\"12\">pending</text></g>
";

/// What the legend has more where a unit is in doubt, with the style of its outline.
pub(crate) const DOUBT_LEGEND: &str =
    "<style>.doubt{fill:none;stroke:#c7361b;stroke-width:1.5;stroke-dasharray:4 2;pointer-events:none}.ask{fill:#c7361b;pointer-events:none}@media (prefers-color-scheme:dark){.doubt{stroke:#ff8f75}.ask{fill:#ff8f75}}</style>
<rect class=\"p\" y=\"22\" width=\"16\" height=\"16\" rx=\"3\"/><rect class=\"doubt\" y=\"22\" width=\"16\" height=\"16\" rx=\"3\"/><text class=\"m t ask\" x=\"8\" y=\"34\">?</text><text class=\"note\" x=\"22\" y=\"34\">in doubt: may be made of other frames than were meant</text>
";

/// The end of the legend.
pub(crate) const LEGEND_END: &str = "</g>\n";
