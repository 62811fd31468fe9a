//! Texts of arbiters.

use spec_gen::arbiter;
use std::test::Fail;

#[test]
fn texts_of_one_two_and_three_clients(rt: HostRuntime) -> Result<(), Fail> {
    // (clients, the text)
    let cases: [(u32, &[u8]); 3] = [
        (
            1,
            b"spec Arbiter\nenv boolean r0;\nsys boolean g0;\ngar alwEv r0 -> g0;\n",
        ),
        (
            2,
            b"spec Arbiter\nenv boolean r0;\nenv boolean r1;\nsys boolean g0;\nsys boolean g1;\ngar alw !(g0 & g1);\ngar alwEv r0 -> g0;\ngar alwEv r1 -> g1;\n",
        ),
        (
            3,
            b"spec Arbiter\nenv boolean r0;\nenv boolean r1;\nenv boolean r2;\nsys boolean g0;\nsys boolean g1;\nsys boolean g2;\ngar alw !(g0 & g1);\ngar alw !(g0 & g2);\ngar alw !(g1 & g2);\ngar alwEv r0 -> g0;\ngar alwEv r1 -> g1;\ngar alwEv r2 -> g2;\n",
        ),
    ];
    for (n, wanted) in cases {
        let text = arbiter(rt.alloc(), n)?;
        assert!(rt; text.as_slice() == wanted, "{n} clients");
    }
    Ok(())
}

#[test]
fn sixty_four_clients_have_2209_lines(rt: HostRuntime) -> Result<(), Fail> {
    // The head, 64 requests, 64 grants, 64 * 63 / 2 pairs and 64 goals.
    let text = arbiter(rt.alloc(), 64)?;
    let lines = text.iter().filter(|byte| **byte == b'\n').count();
    assert_eq!(rt; lines, 2_209);
    assert!(rt; text.ends_with(b"gar alwEv r63 -> g63;\n"), "the last goal");
    Ok(())
}
