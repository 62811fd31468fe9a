ghost use Rattle.std.specs.Prelude.{◌≡◌, ◌++◌, ◌<◌, IfOk, OnOk, string_bytes};
ghost use Rattle.std.specs.List.{flat_map};
ghost use Rattle.spec_gen.specs.Arbiter.{arbiter_text, clients, clients_after, request_line, grant_line, exclusion_line, answer_line};

use crate::OutOfMemory;
use std::alloc::Global;

fn write_requests(text: &mut String, n: u32) -> Result<(), OutOfMemory>
    ensures { OnOk result (string_bytes text.new ≡ string_bytes text.old ++ flat_map request_line (clients n)) }
{
    for i in 0..n {
        write!(text, "env boolean r{i};\n")?;
    }
    Ok(())
}

fn write_grants(text: &mut String, n: u32) -> Result<(), OutOfMemory>
    ensures { OnOk result (string_bytes text.new ≡ string_bytes text.old ++ flat_map grant_line (clients n)) }
{
    for i in 0..n {
        write!(text, "sys boolean g{i};\n")?;
    }
    Ok(())
}

/// No later client has a grant together with client `i`.
fn write_exclusions_of(text: &mut String, i: u32, n: u32) -> Result<(), OutOfMemory>
    requires { i < n }
    ensures { OnOk result (string_bytes text.new ≡ string_bytes text.old ++ flat_map (exclusion_line i) (clients_after i n)) }
{
    for k in i + 1..n {
        write!(text, "gar alw !(g{i} & g{k});\n")?;
    }
    Ok(())
}

fn write_exclusions(text: &mut String, n: u32) -> Result<(), OutOfMemory>
    ensures { OnOk result (string_bytes text.new ≡ string_bytes text.old ++ flat_map (λ i. flat_map (exclusion_line i) (clients_after i n)) (clients n)) }
{
    for i in 0..n {
        write_exclusions_of(text, i, n)?;
    }
    Ok(())
}

fn write_answers(text: &mut String, n: u32) -> Result<(), OutOfMemory>
    ensures { OnOk result (string_bytes text.new ≡ string_bytes text.old ++ flat_map answer_line (clients n)) }
{
    for i in 0..n {
        write!(text, "gar alwEv r{i} -> g{i};\n")?;
    }
    Ok(())
}

/// The text of an arbiter: `n` requests and as many grants, no two grants together, and a goal for each client that its
/// request is answered again and again. `OutOfMemory`: none was given. The command asks for 1 to 64 clients; the text
/// is right for every number.
pub fn arbiter(alloc: Global, n: u32) -> Result<Vec<u8>, OutOfMemory>
    ensures { IfOk result (λ text. text.items ≡ arbiter_text n) }
{
    let mut text = String::new(alloc);
    text.push_str("spec Arbiter\n")?;
    write_requests(&mut text, n)?;
    write_grants(&mut text, n)?;
    write_exclusions(&mut text, n)?;
    write_answers(&mut text, n)?;
    Ok(text.into_bytes())
}
