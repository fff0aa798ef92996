//! The style sheet of pictures.

/// A rule for each look. What differs by colour differs by lightness, by a dash or by an outline too.
pub(crate) const STYLE: &[u8] = b"
svg{background:#fff}
text{font:11px sans-serif;fill:#222}
.head{font-size:16px;font-weight:bold}
.note{font-size:12px}
.label{text-anchor:end;fill:#555}
.strong{font-weight:bold}
.tick{text-anchor:middle;fill:#777;font-size:10px}
.code{font:12px monospace}
.grid{stroke:#ddd}
.guide{stroke:#bbb;stroke-dasharray:1 3}
.first{fill:#9db9dc}
.again{fill:#d9730d;stroke:#8a4200}
.undone{fill:#fff;stroke:#777;stroke-dasharray:3 2}
.mark{fill:#222}
.live{fill:#555}
.control{fill:none;stroke:#555;stroke-dasharray:2 3}
.variable{fill:none;stroke:#1f5fa8}
.table{fill:none;stroke:#c0560a;stroke-dasharray:7 3}
path:hover{stroke-width:3}
";
