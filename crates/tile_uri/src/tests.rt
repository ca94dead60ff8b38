//! Addresses, external tilesets and templates. What is expected of addresses is what another
//! implementation of the URL Standard answers.

use super::*;
use std::alloc::{AllocError, Global};
use std::test::Fail;

const BASE: &str = "http://tiles/x/t.json";

/// A text of `len` bytes that begins with `front`.
fn padded(alloc: Global, front: &str, len: usize) -> Result<String, AllocError> {
    let mut text = String::from_str(alloc, front)?;
    for _ in front.len()..len {
        text.push('a')?;
    }
    Ok(text)
}

/// Texts written below the base, and what they stand for.
static JOINS: [(&str, &str); 30] = [
    ("", "http://tiles/x/t.json"),
    ("a.glb", "http://tiles/x/a.glb"),
    ("A.GLB", "http://tiles/x/A.GLB"),
    ("a/", "http://tiles/x/a/"),
    (
        "a-name_of.more/than/thirty/bytes.b3dm",
        "http://tiles/x/a-name_of.more/than/thirty/bytes.b3dm",
    ),
    ("../a b.glb", "http://tiles/a%20b.glb"),
    ("a//b", "http://tiles/x/a//b"),
    ("./a", "http://tiles/x/a"),
    ("a/./b", "http://tiles/x/a/b"),
    ("a/../b", "http://tiles/x/b"),
    ("../../../a", "http://tiles/a"),
    ("%2e%2E/a.glb", "http://tiles/a.glb"),
    (".a", "http://tiles/x/.a"),
    ("~a", "http://tiles/x/~a"),
    ("/a", "http://tiles/a"),
    ("a?q#f", "http://tiles/x/a?q#f"),
    ("a\tb.glb", "http://tiles/x/ab.glb"),
    ("a\nb.glb", "http://tiles/x/ab.glb"),
    ("  a.glb \n", "http://tiles/x/a.glb"),
    ("%", "http://tiles/x/%"),
    ("%zz", "http://tiles/x/%zz"),
    ("a\\b.glb", "http://tiles/x/a/b.glb"),
    ("\\a", "http://tiles/a"),
    ("é.glb", "http://tiles/x/%C3%A9.glb"),
    ("//host/x", "http://host/x"),
    ("?a.json", "http://tiles/x/t.json?a.json"),
    ("#a.json", "http://tiles/x/t.json#a.json"),
    ("http:t.glb", "http://tiles/x/t.glb"),
    ("https:t.glb", "https://t.glb/"),
    ("data:", "data:"),
];

#[test]
fn texts_below_a_base(rt: HostRuntime) -> Result<(), Fail> {
    let alloc = rt.alloc();
    for (written, wanted) in JOINS.iter() {
        let base = Base::new(alloc, BASE)?;
        assert_eq!(rt; base.resolve(alloc, written)?.text().as_str(), *wanted);
    }
    Ok(())
}

/// Bases, texts written below them, and what these stand for.
static BASES: [(&str, &str, &str); 10] = [
    ("http://tiles/a b", "", "http://tiles/a%20b"),
    ("HTTP://TILES:80/A", "", "http://tiles/A"),
    ("http://tiles", "a.glb", "http://tiles/a.glb"),
    (
        "http://tiles/a b/t.json",
        "c.glb",
        "http://tiles/a%20b/c.glb",
    ),
    (
        "http://tiles/x/t.json?q=/a/b#/c",
        "a.glb",
        "http://tiles/x/a.glb",
    ),
    ("https://u:p@h:81/x/", "a.glb", "https://u:p@h:81/x/a.glb"),
    ("file:///x/t.json", "a.glb", "file:///x/a.glb"),
    ("foo://h/x/t.json", "a.glb", "foo://h/x/a.glb"),
    ("foo://h", "a.glb", "foo://h/a.glb"),
    ("mailto:x", "#a", "mailto:x#a"),
];

#[test]
fn bases(rt: HostRuntime) -> Result<(), Fail> {
    let alloc = rt.alloc();
    for (text, written, wanted) in BASES.iter() {
        let base = Base::new(alloc, text)?;
        assert_eq!(rt; base.resolve(alloc, written)?.text().as_str(), *wanted);
    }
    Ok(())
}

/// Texts that stand for no address alone.
static NO_BASES: [&str; 5] = ["", "a.json", "http://[", "http://a b/", "data:a b"];

#[test]
fn texts_that_are_no_addresses(rt: HostRuntime) -> Result<(), Fail> {
    let alloc = rt.alloc();
    for text in NO_BASES.iter() {
        assert!(rt; Base::new(alloc, text).err() == Some(UriError::NotAnAddress));
    }
    Ok(())
}

/// Bases, and texts that stand for no address below them.
static NO_JOINS: [(&str, &str); 5] = [
    (BASE, "http://["),
    (BASE, "//a b/c"),
    (BASE, "http://x:99999/"),
    (BASE, "data:a b"),
    ("mailto:x", "a.glb"),
];

#[test]
fn texts_that_are_no_addresses_below_a_base(rt: HostRuntime) -> Result<(), Fail> {
    let alloc = rt.alloc();
    for (text, written) in NO_JOINS.iter() {
        let base = Base::new(alloc, text)?;
        assert!(rt; base.resolve(alloc, written).err() == Some(UriError::NotAnAddress));
    }
    Ok(())
}

/// How long texts begin that are written below the base, their lengths, and why they are refused.
/// The text up to the last slash of the base has 15 bytes.
static LONG_JOINS: [(&str, usize, Option<UriError>); 8] = [
    ("", 4081, None),
    ("", 4082, Some(UriError::TooLong)),
    ("~", 4081, None),
    ("~", 4082, Some(UriError::TooLong)),
    ("", 4096, Some(UriError::TooLong)),
    ("http://h/", 4096, None),
    ("http://h/", 4097, Some(UriError::TooLong)),
    ("data:a b", 4097, Some(UriError::NotAnAddress)),
];

#[test]
fn long_texts_below_a_base(rt: HostRuntime) -> Result<(), Fail> {
    let alloc = rt.alloc();
    for (front, len, cause) in LONG_JOINS.iter() {
        let base = Base::new(alloc, BASE)?;
        let written = padded(alloc, front, *len)?;
        assert!(rt; base.resolve(alloc, written.as_str()).err() == *cause);
    }
    Ok(())
}

/// How long texts of bases begin, their lengths, and why they are refused.
static LONG_BASES: [(&str, usize, Option<UriError>); 3] = [
    ("http://h/", 4096, None),
    ("http://h/", 4097, Some(UriError::TooLong)),
    ("data:a b", 4097, Some(UriError::NotAnAddress)),
];

#[test]
fn long_bases(rt: HostRuntime) -> Result<(), Fail> {
    let alloc = rt.alloc();
    for (front, len, cause) in LONG_BASES.iter() {
        let text = padded(alloc, front, *len)?;
        assert!(rt; Base::new(alloc, text.as_str()).err() == *cause);
    }
    Ok(())
}

/// How long templates of a quadtree begin, their lengths, and why they are refused.
static LONG_TEMPLATES: [(&str, usize, Option<UriError>); 3] = [
    ("{x}", 4096, None),
    ("{x}", 4097, Some(UriError::TooLong)),
    ("{z}", 4097, Some(UriError::Placeholder)),
];

#[test]
fn long_templates(rt: HostRuntime) -> Result<(), Fail> {
    let alloc = rt.alloc();
    for (front, len, cause) in LONG_TEMPLATES.iter() {
        let text = padded(alloc, front, *len)?;
        assert!(rt; Template::read(alloc, text.as_str(), false).err() == *cause);
    }
    Ok(())
}

/// Texts written below the base, and whether they name an external tileset.
static EXTERNAL: [(&str, bool); 16] = [
    ("e.json", true),
    ("sub/e.JSON", true),
    (".json", true),
    ("", true),
    ("e.json?a", true),
    ("?a.glb", true),
    ("~/e.json", true),
    ("data:a.json", true),
    ("e.glb?a.json", false),
    ("e.glb#a.json", false),
    ("e.jso", false),
    ("ejson", false),
    ("json", false),
    ("a.json/", false),
    // A host is no path.
    ("//a.json", false),
    ("foo://a.json", false),
];

#[test]
fn external_tilesets(rt: HostRuntime) -> Result<(), Fail> {
    let alloc = rt.alloc();
    for (written, wanted) in EXTERNAL.iter() {
        let base = Base::new(alloc, BASE)?;
        assert_eq!(rt; is_external(&base.resolve(alloc, written)?), *wanted);
    }
    Ok(())
}

/// Templates, whether they are an octree's, what they are filled to, and what that stands for below
/// the base.
static FILLED: [(&str, bool, &str, &str); 8] = [
    (
        "{level}/{x}/{y}/{z}",
        true,
        "2/1/3/0",
        "http://tiles/x/2/1/3/0",
    ),
    (
        "{level}/{x}/{y}.glb",
        false,
        "2/1/3.glb",
        "http://tiles/x/2/1/3.glb",
    ),
    ("", false, "", "http://tiles/x/t.json"),
    ("a}b", false, "a}b", "http://tiles/x/a%7Db"),
    ("{x}{x}", false, "11", "http://tiles/x/11"),
    (
        "c {level}.glb",
        false,
        "c 2.glb",
        "http://tiles/x/c%202.glb",
    ),
    (
        "../{level}/{x}.json",
        false,
        "../2/1.json",
        "http://tiles/2/1.json",
    ),
    // Longer than what is filled on the stack.
    (
        "aaaaaaaaaabbbbbbbbbbccccccccccddddddddddeeeeeeeeeeffffffffffgggggggggg/{level}/\
         hhhhhhhhhhiiiiiiiiiijjjjjjjjjjkkkkkkkkkkllllllllllmmmmmmmmmmnnnnnnnnnn/{x}/{y}.glb",
        false,
        "aaaaaaaaaabbbbbbbbbbccccccccccddddddddddeeeeeeeeeeffffffffffgggggggggg/2/\
         hhhhhhhhhhiiiiiiiiiijjjjjjjjjjkkkkkkkkkkllllllllllmmmmmmmmmmnnnnnnnnnn/1/3.glb",
        "http://tiles/x/\
         aaaaaaaaaabbbbbbbbbbccccccccccddddddddddeeeeeeeeeeffffffffffgggggggggg/2/\
         hhhhhhhhhhiiiiiiiiiijjjjjjjjjjkkkkkkkkkkllllllllllmmmmmmmmmmnnnnnnnnnn/1/3.glb",
    ),
];

#[test]
fn filled_templates(rt: HostRuntime) -> Result<(), Fail> {
    let alloc = rt.alloc();
    for (text, octree, written, wanted) in FILLED.iter() {
        let template = Template::read(alloc, text, *octree)?;
        assert_eq!(rt; template.fill(alloc, 2, 1, 3, 0)?.as_str(), *written);
        let base = Base::new(alloc, BASE)?;
        let address = base.resolve_filled(alloc, &template, 2, 1, 3, 0)?;
        assert_eq!(rt; address.text().as_str(), *wanted);
    }
    Ok(())
}

#[test]
fn greatest_numbers(rt: HostRuntime) -> Result<(), Fail> {
    let alloc = rt.alloc();
    let template = Template::read(alloc, "{level}/{x}/{y}/{z}.glb", true)?;
    let most = template.fill(alloc, 255, 4294967295, 4294967295, 4294967295)?;
    assert_eq!(rt; most.as_str(), "255/4294967295/4294967295/4294967295.glb");
    Ok(())
}

/// Texts that are no templates, and whether they are an octree's.
static NO_TEMPLATES: [(&str, bool); 7] = [
    ("{z}", false),
    ("{", true),
    ("{}", true),
    ("{xy}", true),
    ("{x}/{Level}", true),
    ("{ x}", true),
    ("{{x}}", true),
];

#[test]
fn texts_that_are_no_templates(rt: HostRuntime) -> Result<(), Fail> {
    let alloc = rt.alloc();
    for (text, octree) in NO_TEMPLATES.iter() {
        assert!(rt; Template::read(alloc, text, *octree).err() == Some(UriError::Placeholder));
    }
    Ok(())
}

#[test]
fn causes(rt: HostRuntime) -> Result<(), Fail> {
    let alloc = rt.alloc();
    for (cause, wanted) in [
        (UriError::NotAnAddress, "not an address"),
        (UriError::Placeholder, "a brace that begins no variable"),
        (UriError::TooLong, "longer than 4,096 bytes"),
        (UriError::OutOfMemory, "out of memory"),
    ] {
        assert_eq!(rt; format!(in alloc; "{cause}")?.as_str(), wanted);
    }
    Ok(())
}
