// A measurement that was computed elsewhere.
use ak_measure::Measure;

// The program of an image with one page: it calls out twice.
const PROGRAM: [u8; 66] = [
    0x48, 0xb8, 4, 0, 0, 0, 0, 0, 0, 0, 0x48, 0xbf, 1, 0, 0, 0, 0, 0, 0, 0, 0x48, 0xbe, 7, 0, 0, 0,
    0, 0, 0, 0, 0x0f, 0x01, 0xd7, 0x48, 0xb8, 4, 0, 0, 0, 0, 0, 0, 0, 0x48, 0xbf, 0, 0, 0, 0, 0, 0,
    0, 0, 0x48, 0xbe, 0, 0, 0, 0, 0, 0, 0, 0, 0x0f, 0x01, 0xd7,
];

// SHA-256 of the 36,352 bytes of its blocks, by Python's hashlib.
pub const DIGEST: [u8; 32] = [
    0x81, 0xf1, 0xc6, 0x07, 0x2e, 0x43, 0x80, 0x36, 0x17, 0xcc, 0x2c, 0x3f, 0x80, 0x32, 0x3b, 0x5a,
    0xe5, 0x05, 0xee, 0x1c, 0xec, 0x1d, 0x94, 0x37, 0x4e, 0xf6, 0xc3, 0x4e, 0x6d, 0xa9, 0xf7, 0x18,
];

#[test]
fn seven_pages(rt: HostRuntime) {
    let zeros = [0u8; 4096];
    let mut program = zeros;
    program[..66].copy_from_slice(&PROGRAM);
    // The TCS: the areas for saved frames begin at 8192, there are three, and entering goes to 24576.
    let mut tcs = zeros;
    tcs[17] = 0x20;
    tcs[28] = 3;
    tcs[33] = 0x60;
    // The runtime's code page: one page, in cluster 0, that may be executed; a budget of 1.
    let mut code = zeros;
    code[1026] = 2;
    code[3072] = 1;
    let mut measure = Measure::new(32768);
    measure.add_page(0, 517, &program);
    measure.add_page(4096, 256, &tcs);
    measure.add_page(8192, 515, &zeros);
    measure.add_page(12288, 515, &zeros);
    measure.add_page(16384, 515, &zeros);
    measure.add_page(20480, 515, &zeros);
    measure.add_page(24576, 517, &code);
    assert_eq!(rt; measure.finish(), DIGEST);
}
