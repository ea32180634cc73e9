//! The page of the admin port: one text without foreign parts.

use crate::page_script::SCRIPT;
use crate::page_style::STYLE;

/// What the page may load: the style and the script that have these hashes, and data of this server.
pub(crate) const POLICY: &str =
    "default-src 'none'; style-src 'sha256-C76hP646S3i6qNLNO8txVwcA4RlouhDtuaP1PzR+xW0='; script-src 'sha256-l3aYIjsOvtZthoHw0J0XCmmURyXUr4Fcvh0yP2fiS/A='; connect-src 'self'; base-uri 'none'; form-action 'none'; frame-ancestors 'none'";

/// The parts of the page.
pub(crate) const PAGE: [&str; 5] = [HEAD, STYLE, BODY, SCRIPT, END];

const HEAD: &str = r##"<!doctype html>
<html lang="en">
<head>
<meta charset="utf-8">
<meta name="viewport" content="width=device-width, initial-scale=1">
<meta name="referrer" content="no-referrer">
<title>rbacd</title>
<style>"##;

const BODY: &str = r##"</style>
</head>
<body>
<header><h1>rbacd</h1><span id="node" class="quiet names"></span></header>
<p id="notice" class="notice" role="status" hidden></p>
<main>
<dl id="facts" class="facts"></dl>
<section aria-label="Verdicts">
<h2>Verdicts of the last <span id="minutes">15</span> minutes, requests per second</h2>
<p id="legend" class="legend"></p>
<div class="axis"><span id="most"></span></div>
<svg id="chart" viewBox="0 0 1000 200" preserveAspectRatio="none" role="img" aria-label="Requests per second by verdict"></svg>
<div class="axis"><span id="oldest"></span><span>now</span></div>
</section>
<div class="columns">
<section><h2>Last refused response</h2><div id="refusal"></div></section>
<section><h2>Slowest responses to judge</h2><div id="slowest"></div></section>
</div>
<section id="filters" class="filters" aria-label="Filters"></section>
</main>
<noscript>This page needs JavaScript. /metrics and /config have the same numbers.</noscript>
<script>"##;

const END: &str = r##"</script>
</body>
</html>
"##;
