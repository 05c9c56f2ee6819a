ghost use Rattle.std.specs.Prelude.{◌≡◌};
ghost use Rattle.picture.specs.Style.{legend_text, root_text, style_text, view_box_start, wait_start};

/// The start of the root element.
const ROOT: &str = "<svg xmlns='http://www.w3.org/2000/svg'";

/// How the classes look, and the shapes that are used again. Arrows differ by width and boxes by dashes, not by colour alone.
const STYLE: &str = "<style>
text{fill:#111;font:12px sans-serif}
.head{font-weight:bold}
.line{font:11px monospace}
.page{fill:#fff}
.parallel{fill:#eef2f7}
.serial{fill:#f7efdf}
.column{fill:none;stroke:#bbb}
.box{fill:#fff;stroke:#333}
.lost{fill:#fff;stroke:#b30000;stroke-width:3;stroke-dasharray:7 3}
.unread{fill:#fff;stroke:#8a6d3b;stroke-width:1.6;stroke-dasharray:2 3}
.own{fill:none;stroke:#8a8a8a;stroke-width:1.2;marker-end:url(#grey)}
.other{fill:none;stroke:#0061b5;stroke-width:2.6;marker-end:url(#blue)}
.opening{fill:none;stroke:#555;stroke-dasharray:3 2;marker-start:url(#ring);marker-end:url(#dark)}
</style>
<defs>
<marker id='grey' viewBox='0 0 8 8' refX='8' refY='4' markerWidth='7' markerHeight='7' orient='auto' markerUnits='userSpaceOnUse'><path d='M0 0L8 4L0 8Z' fill='#8a8a8a'/></marker>
<marker id='blue' viewBox='0 0 8 8' refX='8' refY='4' markerWidth='11' markerHeight='11' orient='auto' markerUnits='userSpaceOnUse'><path d='M0 0L8 4L0 8Z' fill='#0061b5'/></marker>
<marker id='dark' viewBox='0 0 8 8' refX='8' refY='4' markerWidth='6' markerHeight='6' orient='auto' markerUnits='userSpaceOnUse'><path d='M0 0L8 4L0 8Z' fill='#555'/></marker>
<marker id='ring' viewBox='0 0 8 8' refX='4' refY='4' markerWidth='7' markerHeight='7' markerUnits='userSpaceOnUse'><circle cx='4' cy='4' r='3' fill='#fff' stroke='#555'/></marker>
<path id='wait' d='M0 0H10L0 12H10Z' fill='#333'/>
</defs>
";

/// What the arrows and marks mean.
const LEGEND: &str = "<path class='own' d='M14 22H54'/>
<text x='64' y='26'>read by the hart that wrote it</text>
<path class='other' d='M14 42H54'/>
<text x='64' y='46'>read by another hart</text>
<path class='opening' d='M14 62H54'/>
<text x='64' y='66'>a byte is as memory opened</text>
<rect class='lost' x='14' y='75' width='40' height='13'/>
<text x='64' y='86'>a store that another hart overwrote, and nobody read: so a lost update looks</text>
<rect class='unread' x='14' y='95' width='40' height='13'/>
<text x='64' y='106'>a store that its own hart overwrote, and nobody read</text>
<use href='#wait' x='30' y='116'/>
<text x='64' y='126'>the hart had waited for the serial part of the round</text>
<text class='line' x='10' y='146'>3 times</text>
<text x='64' y='146'>so many equal loads in a row</text>
<text x='14' y='166'>Point at a box for its place, its pc and the object that it touched.</text>
";

/// The start of the mark of a hart that had waited.
const WAIT: &str = "<use href='#wait'";

/// The start of the part of the plane that is shown.
const VIEW_BOX: &str = " viewBox='0 0 ";

#[tactic(auto, unfolding(crate::specs::Style::view_box_start))]
pub(crate) fn start_of_view_box() -> &'static str
    ensures { result.now ≡ view_box_start }
{
    VIEW_BOX
}

#[tactic(auto, unfolding(crate::specs::Style::wait_start))]
pub(crate) fn start_of_wait() -> &'static str
    ensures { result.now ≡ wait_start }
{
    WAIT
}

#[tactic(auto, unfolding(crate::specs::Style::root_text))]
pub(crate) fn root() -> &'static str
    ensures { result.now ≡ root_text }
{
    ROOT
}

#[tactic(auto, unfolding(crate::specs::Style::style_text))]
pub fn style() -> &'static str
    ensures { result.now ≡ style_text }
{
    STYLE
}

#[tactic(auto, unfolding(crate::specs::Style::legend_text))]
pub(crate) fn legend() -> &'static str
    ensures { result.now ≡ legend_text }
{
    LEGEND
}
