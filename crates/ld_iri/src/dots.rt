ghost use Rattle.std.specs.Prelude.{◌≡◌, ◌++◌, ◌∷◌, [], List, ℕ, IfOk, OnOk, string_bytes, option_copied};
ghost use Rattle.ld_iri.specs.declared.dots.Last.TheVariants.{Nothing};
ghost use Rattle.ld_iri.specs.Resolution.{segments, is_dots, without_last, next_output, without_dots, folder_segments};

use ld_tree::NoMemory;
use std::alloc::Global;

// What the output ends in: nothing but dot segments came so far; a segment; a dot segment, whose slash
// is still to be written.
#[derive(Clone, Copy)]
enum Last {
    Nothing,
    Segment,
    Dots,
}

// The output buffer of RFC 3986, section 5.2.4.
#[derive(Drop)]
struct Output {
    text: String,
    last: Last,
    ghost begins_empty: { last ≡ Nothing → string_bytes text ≡ [] },
}

// Step 2C: removes the last segment and the slash before it, if any. The bytes that are searched are
// removed, so all such searches together are linear in what was written.
fn remove_last(text: &mut String)
    ensures { string_bytes text.new ≡ without_last (string_bytes text.old) }
{
    match text.as_str().rfind('/') {
        Some(at) => text.truncate(at),
        None => text.clear(),
    }
}

// Steps 2B, 2C and 2E for a segment with a slash before it.
fn push_segment(text: &mut String, segment: &str) -> Result<(), NoMemory>
    ensures { OnOk result (string_bytes text.new ≡ next_output (string_bytes text.old) segment.now) }
{
    match segment {
        "." => {}
        ".." => remove_last(text),
        _ => {
            text.push('/')?;
            text.push_str(segment)?;
        }
    }
    Ok(())
}

fn is_dots(segment: &str) -> bool
    ensures { result ≡ is_dots segment.now }
{
    segment == "." || segment == ".."
}

impl Output {
    ghost use Rattle.ld_iri.specs.Outputs.{completes};

    fn new(alloc: Global, capacity: usize) -> Result<Output, NoMemory>
        ensures { IfOk result (λ output. (rest : List (List ℕ)) → completes output rest ≡ without_dots rest) }
    {
        let text = String::with_capacity(alloc, capacity)?;
        Ok(Output {
            text,
            last: Last::Nothing,
        })
    }

    fn push(&mut self, segment: &str) -> Result<(), NoMemory>
        ensures { OnOk result ((rest : List (List ℕ)) → completes self.new rest ≡ completes self.old (segment.now ∷ rest)) }
    {
        let dots = is_dots(segment);
        match self.last {
            Last::Nothing => {
                if !dots {
                    self.text.push_str(segment)?;
                    self.last = Last::Segment;
                }
            }
            Last::Segment | Last::Dots => {
                push_segment(&mut self.text, segment)?;
                self.last = if dots { Last::Dots } else { Last::Segment };
            }
        }
        Ok(())
    }

    // Each segment of the path.
    fn push_path(&mut self, path: &str) -> Result<(), NoMemory>
        ensures { OnOk result ((rest : List (List ℕ)) → completes self.new rest ≡ completes self.old (segments path.now ++ rest)) }
    {
        let mut rest = path;
        while let Some((segment, after)) = rest.split_once('/') {
            self.push(segment)?;
            rest = after;
        }
        self.push(rest)
    }

    fn finish(self) -> Result<String, NoMemory>
        ensures { IfOk result (λ text. string_bytes text ≡ completes self []) }
    {
        let Output { mut text, last } = self;
        if let Last::Dots = last {
            text.push('/')?;
        }
        Ok(text)
    }
}

/// The path, behind the folder where there is one, without its dot segments (RFC 3986, section 5.2.4).
pub(crate) fn without_dots(
    alloc: Global,
    folder: Option<&str>,
    path: &str,
) -> Result<String, NoMemory>
    ensures { IfOk result (λ text. string_bytes text ≡ without_dots (folder_segments (option_copied folder.entry) ++ segments path.now)) }
{
    let capacity = folder
        .map_or(0, |folder| folder.len())
        .saturating_add(path.len());
    let mut output = Output::new(alloc, capacity.saturating_add(1))?;
    if let Some(folder) = folder {
        output.push_path(folder)?;
    }
    output.push_path(path)?;
    output.finish()
}
