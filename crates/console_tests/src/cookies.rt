//! Which texts are cookies.
use console::Cookie;
use std::alloc::Global;

/// Whether a text is a cookie.
fn is_cookie(text: &str) -> bool {
    Cookie::new(text).is_some()
}

/// Whether so many bytes are.
fn is_as_long(alloc: Global, count: u32) -> bool {
    let mut text = String::new(alloc);
    for _ in 0..count {
        if text.push('x').is_err() {
            return false;
        }
    }
    is_cookie(text.as_str())
}

#[test]
fn cookies_have_sixteen_bytes_at_least_and_255_at_most(rt: HostRuntime) {
    assert!(rt; !is_cookie("") && !is_cookie("0123456789abcde"));
    assert!(rt; is_cookie("0123456789abcdef"));
    assert!(rt; is_cookie("!#$%&()*+,-./:;<=>?@[]^_`{|}~"));
    assert!(rt; !is_cookie("01234567 89abcdef"));
    assert!(rt; !is_cookie("01234567\t89abcdef"));
    assert!(rt; !is_cookie("01234567\u{7f}89abcdef"));
    assert!(rt; !is_cookie("01234567é89abcdef"));
    assert!(rt; is_as_long(rt.alloc(), 255) && !is_as_long(rt.alloc(), 256));
}
