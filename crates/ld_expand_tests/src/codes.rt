use ld_codes::{Code, Keyword, Own};

#[test]
fn codes_have_the_texts_of_the_standard(rt: HostRuntime) {
    let rows = [
        (Code::CyclicIriMapping, "cyclic IRI mapping"),
        (Code::InvalidBaseDirection, "invalid base direction"),
        (Code::InvalidIncludedValue, "invalid @included value"),
        (
            Code::InvalidLanguageTaggedString,
            "invalid language-tagged string",
        ),
        (Code::IriConfusedWithPrefix, "IRI confused with prefix"),
        (
            Code::LoadingRemoteContextFailed,
            "loading remote context failed",
        ),
    ];
    for (code, text) in rows {
        assert_eq!(rt; code.text(), text);
    }
}

#[test]
fn keywords_are_read_letter_for_letter(rt: HostRuntime) {
    let rows = [
        ("@type", Some(Keyword::Typed)),
        ("@none", Some(Keyword::None)),
        ("@Type", None),
        ("@typed", None),
        ("type", None),
        ("@", None),
        ("", None),
    ];
    for (text, keyword) in rows {
        assert!(rt; Keyword::from_text(text) == keyword, "at {text}");
    }
    assert_eq!(rt; Keyword::Typed.text(), "@type");
    assert!(rt; Own::OutsideProfile(Keyword::Nest) != Own::NestingLimit);
}
