//! The front and the end of a page: its style sheet, and a script that makes pictures larger and
//! smaller and tells what a pointer rests on. No text of a description or a trace stands in it.

/// What a page begins with.
pub const PAGE_FRONT: &str = r##"<!DOCTYPE html>
<html lang="en">
<head>
<meta charset="utf-8">
<meta name="viewport" content="width=device-width">
<title>A system and its play</title>
<style>
body{font:15px/1.5 sans-serif;margin:0 24px 48px;background:#fff;color:#1b1f24}
header{position:sticky;top:0;z-index:1;display:flex;gap:8px;align-items:center;flex-wrap:wrap;
background:#fff;padding:12px 0;border-bottom:1px solid #8c959f}
h1{font-size:20px;margin:0 16px 0 0}
h2{font-size:17px;margin:24px 0 8px}
button{font:14px sans-serif;padding:4px 12px;border:1px solid #57606a;border-radius:6px;
background:#f3f5f7;color:inherit;cursor:pointer}
.frame{overflow:auto;max-height:80vh;border:1px solid #8c959f;border-radius:6px}
.frame svg{display:block}
main > svg{position:absolute}
pre{font:13px monospace;overflow:auto;max-height:60vh;border:1px solid #8c959f;border-radius:6px;
padding:12px}
#said{position:fixed;left:0;right:0;bottom:0;margin:0;padding:6px 24px;min-height:1.5em;
font:13px/1.5 monospace;background:#f3f5f7;border-top:1px solid #8c959f}
@media (prefers-color-scheme:dark){body,header{background:#14171a;color:#e6e9ec}
button,#said{background:#22272c}}
</style>
</head>
<body>
<header>
<h1>A system and its play</h1>
<button type="button" id="farther">Smaller</button>
<button type="button" id="whole">100 percent</button>
<button type="button" id="nearer">Larger</button>
</header>
<main>
"##;

/// What it ends with.
pub const PAGE_END: &str = r##"</main>
<p id="said" aria-live="polite">Rest the pointer on a shape to read what it is.</p>
<script>
"use strict";
const pictures = Array.from(document.querySelectorAll(".frame > svg"), (picture) => ({
    picture,
    wide: Number(picture.getAttribute("width")),
    high: Number(picture.getAttribute("height")),
}));
const said = document.getElementById("said");
const whole = document.getElementById("whole");
let scale = 1;
function show(size) {
    scale = Math.min(8, Math.max(0.1, size));
    for (const { picture, wide, high } of pictures) {
        picture.setAttribute("width", Math.round(wide * scale));
        picture.setAttribute("height", Math.round(high * scale));
    }
    whole.textContent = Math.round(100 * scale) + " percent";
}
document.getElementById("nearer").addEventListener("click", () => show(scale * 1.25));
document.getElementById("farther").addEventListener("click", () => show(scale / 1.25));
whole.addEventListener("click", () => show(1));
document.addEventListener("mouseover", (event) => {
    const shape = event.target.closest(".frame svg > *");
    const note = shape && shape.querySelector(":scope > title");
    if (note) {
        said.textContent = note.textContent;
    }
});
</script>
</body>
</html>
"##;
