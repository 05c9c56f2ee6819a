//! How the classes look that a picture of an execution has beside those of a run, and what its marks mean.

/// Operations out of order differ by dashes, not by colour alone.
pub(crate) const STYLE: &str = "<style>
.moved{fill:#fff;stroke:#7a2da0;stroke-width:3;stroke-dasharray:10 2 2 2}
.home{fill:#7a2da0;stroke:none}
.back{fill:none;stroke:#7a2da0;stroke-width:1.8;stroke-dasharray:6 3;marker-end:url(#violet)}
</style>
<defs>
<marker id='violet' viewBox='0 0 8 8' refX='8' refY='4' markerWidth='9' markerHeight='9' orient='auto' markerUnits='userSpaceOnUse'><path d='M0 0L8 4L0 8Z' fill='#7a2da0'/></marker>
</defs>
";

/// What the arrows and marks mean.
pub(crate) const LEGEND: &str = "<path class='own' d='M14 22H54'/>
<text x='64' y='26'>read by the hart that wrote it</text>
<path class='other' d='M14 42H54'/>
<text x='64' y='46'>read by another hart</text>
<path class='opening' d='M14 62H54'/>
<text x='64' y='66'>a byte is as memory opened</text>
<rect class='moved' x='14' y='75' width='40' height='13'/>
<text x='64' y='86'>an operation out of its hart's order,</text>
<path class='back' d='M14 102H54'/>
<text x='64' y='106'>and where the program has it</text>
<text x='14' y='126'>Point at a box for its place, its pc and the object that it touched.</text>
";
