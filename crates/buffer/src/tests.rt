//! Examples of each kind of code buffer, and of layers over layers.
use super::*;
use std::test::Fail;

#[test]
fn a_text_may_fill_a_buffer_to_its_limit(rt: HostRuntime) {
    let mut four = [0; 4];
    let mut code = SliceBuffer::new(&mut four);
    assert_eq!(rt; code.print(b"abcd"), Ok(()));
    assert_eq!(rt; code.finish(), 4);
    assert_eq!(rt; four, *b"abcd");
}

#[test]
fn a_refused_print_leaves_all_as_it_was(rt: HostRuntime) {
    let mut cells = [9; 5];
    let mut code = SliceBuffer::new(&mut cells);
    assert_eq!(rt; code.print(b"ab"), Ok(()));
    assert_eq!(rt; code.print(b"cdef"), Err(BufferFault::Full(6)));
    assert_eq!(rt; (code.limit(), code.finish()), (5, 2));
    assert_eq!(rt; cells, [b'a', b'b', 9, 9, 9]);
}

#[test]
fn no_limit_passes_65536(rt: HostRuntime) -> Result<(), Fail> {
    let mut cells = vec![in rt.alloc(); 0u8; 65537]?;
    let code = SliceBuffer::new(cells.as_mut_slice());
    assert_eq!(rt; code.limit(), 65536);
    Ok(())
}

#[test]
fn an_owned_buffer_takes_4096_bytes(rt: HostRuntime) {
    let mut code = OwnedBuffer::new();
    assert_eq!(rt; code.print(&[b'x'; 4097]), Err(BufferFault::Full(4097)));
    assert_eq!(rt; code.print(&[b'x'; 4096]), Ok(()));
    let (cells, held) = code.finish();
    assert_eq!(rt; (held, cells[4095]), (4096, b'x'));
}

#[test]
fn layers_stand_over_a_slice(rt: HostRuntime) {
    let mut cells = [9; 8];
    let mut code = LineWatch::new(Quota::new(SliceBuffer::new(&mut cells), 5));
    assert_eq!(rt; code.print(b"a\nbc"), Ok(()));
    assert_eq!(rt; code.print(b"\n\n"), Err(BufferFault::Full(6)));
    let counts = (code.limit(), code.line_feeds(), code.column());
    assert_eq!(rt; counts, (5, 1, 2));
    assert_eq!(rt; code.into_inner().into_inner().finish(), 4);
    assert_eq!(rt; cells, [b'a', b'\n', b'b', b'c', 9, 9, 9, 9]);
}

#[test]
fn a_quota_never_falls_below_what_is_held(rt: HostRuntime) {
    let mut below = OwnedBuffer::new();
    assert_eq!(rt; below.print(b"ab\nc"), Ok(()));
    let mut code = Quota::new(LineWatch::new(below), 2);
    assert_eq!(rt; code.print(b""), Ok(()));
    assert_eq!(rt; code.print(b"d"), Err(BufferFault::Full(5)));
    assert_eq!(rt; code.limit(), 4);
    let owned = code.into_inner().into_inner();
    assert_eq!(rt; owned.as_bytes(), b"ab\nc".as_slice());
}

#[test]
fn the_column_goes_on_over_prints(rt: HostRuntime) {
    let mut code = LineWatch::new(OwnedBuffer::new());
    assert_eq!(rt; code.print(b"abc"), Ok(()));
    assert_eq!(rt; (code.line_feeds(), code.column()), (0, 3));
    assert_eq!(rt; code.print(b"d\n\nef"), Ok(()));
    assert_eq!(rt; code.print(b"g"), Ok(()));
    assert_eq!(rt; (code.line_feeds(), code.column()), (2, 3));
    let _ = code.into_inner();
}

#[test]
fn a_watch_counts_what_comes_through_a_quota(rt: HostRuntime) {
    let mut code = Quota::new(LineWatch::new(OwnedBuffer::new()), 5);
    assert_eq!(rt; code.print(b"a\nbc"), Ok(()));
    assert_eq!(rt; code.print(b"\n\n"), Err(BufferFault::Full(6)));
    let watch = code.into_inner();
    assert_eq!(rt; (watch.line_feeds(), watch.column()), (1, 2));
    let _ = watch.into_inner();
}

/// A caller's struct, which holds layer over layer over any buffer.
struct Sheet<B: CodeBuffer> {
    code: Quota<LineWatch<B>>,
}

impl<B: CodeBuffer> Sheet<B> {
    fn over(below: B) -> Sheet<B> {
        Sheet {
            code: Quota::new(LineWatch::new(below), 3),
        }
    }
}

#[test]
fn a_struct_over_any_buffer_may_hold_layers(rt: HostRuntime) {
    let mut sheet = Sheet::over(OwnedBuffer::new());
    assert_eq!(rt; sheet.code.print(b"a\nb"), Ok(()));
    assert_eq!(rt; sheet.code.print(b"c"), Err(BufferFault::Full(4)));
    let Sheet { code } = sheet;
    let watch = code.into_inner();
    assert_eq!(rt; (watch.line_feeds(), watch.column()), (1, 1));
    let _ = watch.into_inner();
}
