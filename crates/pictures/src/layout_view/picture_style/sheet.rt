//! The style sheet of pictures, with the heads of arrows and the patterns of shades.

/// What is put in front of the shapes of a picture: the inks, each with a colour for a light and
/// for a dark page, by the viewer's setting (the light one first, for viewers that don't read
/// variables), and beside it a dash or a pattern, so that colour
/// isn't the only sign.
pub const PICTURE_STYLE: &str = r##"<style>
svg{background:#fff;--ink:#1b1f24;--soft:#57606a;--box:#f3f5f7;--far:#e2e7ec;--rail:#c4cad0;
--net:#0b5cad;--byte:#9a3b00;--req:#6b2fa0;--resp:#1a6b2c;--bell:#8a6100}
@media (prefers-color-scheme:dark){svg{background:#14171a;--ink:#e6e9ec;--soft:#a0a8b0;
--box:#22272c;--far:#30373d;--rail:#4a525a;
--net:#7ab8ff;--byte:#ffb07a;--req:#d3a6ff;--resp:#8fdc9f;--bell:#e8c35a}}
svg text{font:12px monospace;fill:#1b1f24;fill:var(--ink)}
svg text.heading{font-weight:bold;font-size:15px}
.domain{fill:#f3f5f7;fill:var(--box);stroke:#1b1f24;stroke:var(--ink)}
.device{fill:#e2e7ec;fill:var(--far);stroke:#1b1f24;stroke:var(--ink);stroke-dasharray:5 3}
.lane{stroke:#c4cad0;stroke:var(--rail)}
.channel{stroke:#57606a;stroke:var(--soft);fill:#57606a;fill:var(--soft);stroke-width:1.5}
.region{fill:#e2e7ec;fill:var(--far);stroke:#57606a;stroke:var(--soft)}
.net{stroke:#0b5cad;stroke:var(--net);fill:#0b5cad;fill:var(--net)}
.byte{stroke:#9a3b00;stroke:var(--byte);fill:#9a3b00;fill:var(--byte)}
.req{stroke:#6b2fa0;stroke:var(--req);fill:#6b2fa0;fill:var(--req)}
.resp{stroke:#1a6b2c;stroke:var(--resp);fill:#1a6b2c;fill:var(--resp)}
line.net,line.byte,line.req,line.resp{stroke-width:2}
line.net{marker-end:url(#headnet)}
line.byte{marker-end:url(#headbyte);stroke-dasharray:2 3}
line.req{marker-end:url(#headreq);stroke-dasharray:9 3}
line.resp{marker-end:url(#headresp);stroke-dasharray:9 3 2 3}
.loose{stroke:#57606a;stroke:var(--soft);fill:#57606a;fill:var(--soft);
stroke-width:2;stroke-dasharray:1 2}
.asked{fill:none;stroke:#8a6100;stroke:var(--bell);stroke-width:2}
.rung{fill:#8a6100;fill:var(--bell);stroke:#8a6100;stroke:var(--bell)}
.woken{fill:#1b1f24;fill:var(--ink);stroke:#1b1f24;stroke:var(--ink);rx:4px}
.refused{fill:none;stroke:#57606a;stroke:var(--soft);stroke-dasharray:2 1}
.shade{stroke:#1b1f24;stroke:var(--ink)}
.hatch{stroke:#000;fill:none}
.shade0{fill:url(#s0)}.shade1{fill:url(#s1)}.shade2{fill:url(#s2)}.shade3{fill:url(#s3)}
.shade4{fill:url(#s4)}.shade5{fill:url(#s5)}.shade6{fill:url(#s6)}.shade7{fill:url(#s7)}
</style>
<defs>
<marker id="headnet" viewBox="0 0 8 8" refX="8" refY="4"
markerWidth="9" markerHeight="9" orient="auto" markerUnits="userSpaceOnUse">
<path d="M0 0L8 4L0 8z" class="net"/></marker>
<marker id="headbyte" viewBox="0 0 8 8" refX="8" refY="4"
markerWidth="9" markerHeight="9" orient="auto" markerUnits="userSpaceOnUse">
<path d="M0 0L8 4L0 8z" class="byte"/></marker>
<marker id="headreq" viewBox="0 0 8 8" refX="8" refY="4"
markerWidth="9" markerHeight="9" orient="auto" markerUnits="userSpaceOnUse">
<path d="M0 0L8 4L0 8z" class="req"/></marker>
<marker id="headresp" viewBox="0 0 8 8" refX="8" refY="4"
markerWidth="9" markerHeight="9" orient="auto" markerUnits="userSpaceOnUse">
<path d="M0 0L8 4L0 8z" class="resp"/></marker>
<pattern id="s0" width="8" height="8" patternUnits="userSpaceOnUse">
<path d="M0 0H8V8H0z" fill="#4e79a7"/></pattern>
<pattern id="s1" width="8" height="8" patternUnits="userSpaceOnUse">
<path d="M0 0H8V8H0z" fill="#f28e2b"/><path d="M0 8L8 0" class="hatch"/></pattern>
<pattern id="s2" width="8" height="8" patternUnits="userSpaceOnUse">
<path d="M0 0H8V8H0z" fill="#76b7b2"/><path d="M0 0L8 8" class="hatch"/></pattern>
<pattern id="s3" width="8" height="8" patternUnits="userSpaceOnUse">
<path d="M0 0H8V8H0z" fill="#e15759"/><path d="M4 0V8" class="hatch"/></pattern>
<pattern id="s4" width="8" height="8" patternUnits="userSpaceOnUse">
<path d="M0 0H8V8H0z" fill="#59a14f"/><path d="M0 4H8" class="hatch"/></pattern>
<pattern id="s5" width="8" height="8" patternUnits="userSpaceOnUse">
<path d="M0 0H8V8H0z" fill="#edc948"/><path d="M0 4H8M4 0V8" class="hatch"/></pattern>
<pattern id="s6" width="8" height="8" patternUnits="userSpaceOnUse">
<path d="M0 0H8V8H0z" fill="#b07aa1"/><path d="M2 2H6V6H2z" class="hatch"/></pattern>
<pattern id="s7" width="8" height="8" patternUnits="userSpaceOnUse">
<path d="M0 0H8V8H0z" fill="#9c755f"/><path d="M0 0L8 8M0 8L8 0" class="hatch"/></pattern>
</defs>
"##;
