//! The static table: RFC 7541, appendix A.

/// The names and values, in order.
pub(crate) const STATIC_TEXTS: &[u8; 684] =
    b":authority:methodGET:methodPOST:path/:path/index.html:schemehttp:schemehttps:status200:status204:status206:status304:status400:status404:status500accept-charsetaccept-encodinggzip, deflateaccept-languageaccept-rangesacceptaccess-control-allow-originageallowauthorizationcache-controlcontent-dispositioncontent-encodingcontent-languagecontent-lengthcontent-locationcontent-rangecontent-typecookiedateetagexpectexpiresfromhostif-matchif-modified-sinceif-none-matchif-rangeif-unmodified-sincelast-modifiedlinklocationmax-forwardsproxy-authenticateproxy-authorizationrangerefererrefreshretry-afterserverset-cookiestrict-transport-securitytransfer-encodinguser-agentvaryviawww-authenticate";

/// Where each name and each value begins, and where the last one ends.
pub(crate) static STATIC_STARTS: [u16; 123] = [
    0, 10, 10, 17, 20, 27, 31, 36, 37, 42, 53, 60, 64, 71, 76, 83, 86, 93, 96, 103, 106, 113, 116,
    123, 126, 133, 136, 143, 146, 160, 160, 175, 188, 203, 203, 216, 216, 222, 222, 249, 249, 252,
    252, 257, 257, 270, 270, 283, 283, 302, 302, 318, 318, 334, 334, 348, 348, 364, 364, 377, 377,
    389, 389, 395, 395, 399, 399, 403, 403, 409, 409, 416, 416, 420, 420, 424, 424, 432, 432, 449,
    449, 462, 462, 470, 470, 489, 489, 502, 502, 506, 506, 514, 514, 526, 526, 544, 544, 563, 563,
    568, 568, 575, 575, 582, 582, 593, 593, 599, 599, 609, 609, 634, 634, 651, 651, 661, 661, 665,
    665, 668, 668, 684, 684,
];
