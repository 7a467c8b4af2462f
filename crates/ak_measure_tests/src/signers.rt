// Signers files of each kind.
use crate::measurement::DIGEST;
use ak_measure::{Signers, SignersFault};
use std::alloc::Global;
use std::test::Fail;

// What the bytes are refused with, if they are refused.
fn fault_of(alloc: Global, bytes: &[u8]) -> Option<SignersFault> {
    Signers::read(alloc, bytes).err()
}

#[test]
fn refused(rt: HostRuntime) {
    let cases: [(&[u8], SignersFault); 20] = [
        (b"lab = [", SignersFault::NotToml),
        (b"lab = []\nlab = []\n", SignersFault::NotToml),
        (b"lab = []\n\"l\\u0061b\" = []\n", SignersFault::NotToml),
        (b"# \xff\n", SignersFault::NotToml),
        (b"lab = ''\n", SignersFault::BadKey),
        (b"lab = 3\n", SignersFault::BadKey),
        (b"lab = [1]\n", SignersFault::BadKey),
        (b"lab = [[]]\n", SignersFault::BadKey),
        (b"lab = {}\n", SignersFault::BadKey),
        (b"[lab]\n", SignersFault::BadKey),
        (b"[[lab]]\n", SignersFault::BadKey),
        (b"lab.other = []\n", SignersFault::BadKey),
        (b"lab = ['']\n", SignersFault::BadDigest),
        (
            b"lab = ['000000000000000000000000000000000000000000000000000000000000000g']\n",
            SignersFault::BadDigest,
        ),
        (
            b"lab = ['00000000000000000000000000000000000000000000000000000000000000']\n",
            SignersFault::BadDigest,
        ),
        (
            b"lab = ['00000000000000000000000000000000000000000000000000000000000000000']\n",
            SignersFault::BadDigest,
        ),
        (
            b"lab = ['abababababababababababababababababababababababababababababababab', \
            'ABABABABABABABABABABABABABABABABABABABABABABABABABABABABABABABAB']\n",
            SignersFault::Repeated,
        ),
        // Two at once: the one that comes first in the order, wherever it stands.
        (b"a = 1\nb = [\n", SignersFault::NotToml),
        (b"a = ['']\nb = 1\n", SignersFault::BadKey),
        (
            b"a = ['0000000000000000000000000000000000000000000000000000000000000000', \
            '0000000000000000000000000000000000000000000000000000000000000000']\nb = ['']\n",
            SignersFault::BadDigest,
        ),
    ];
    for (bytes, fault) in cases {
        assert_eq!(rt; fault_of(rt.alloc(), bytes), Some(fault), "{fault:?}");
    }
}

#[test]
fn accepted_with_no_digest(rt: HostRuntime) -> Result<(), Fail> {
    let alloc = rt.alloc();
    let empty = Signers::read(alloc, b"")?;
    assert!(rt; !empty.knows(""));
    assert!(rt; !empty.allows("", &DIGEST));
    let lab = Signers::read(alloc, b"\xef\xbb\xbf# nothing signed yet\r\nlab = [ ]\r\n")?;
    assert!(rt; lab.knows("lab"));
    assert!(rt; !lab.knows("la"));
    assert!(rt; !lab.allows("lab", &DIGEST));
    Ok(())
}

#[test]
fn two_signers(rt: HostRuntime) -> Result<(), Fail> {
    let signers = Signers::read(
        rt.alloc(),
        b"lab = [\n'0000000000000000000000000000000000000000000000000000000000000000', # none\n\
            \"81f1C6072E43803617CC2C3F80323B5AE505EE1CEC1D94374EF6C34E6DA9F718\",\n]\n\
            'other lab' = ['0000000000000000000000000000000000000000000000000000000000000000']\n",
    )?;
    assert!(rt; signers.knows("lab"));
    assert!(rt; signers.knows("other lab"));
    assert!(rt; !signers.knows("other"));
    assert!(rt; signers.allows("lab", &[0; 32]));
    assert!(rt; signers.allows("lab", &DIGEST));
    assert!(rt; signers.allows("other lab", &[0; 32]));
    assert!(rt; !signers.allows("other lab", &DIGEST));
    assert!(rt; !signers.allows("none", &DIGEST));
    Ok(())
}
