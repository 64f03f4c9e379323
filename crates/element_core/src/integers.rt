//! The twelve integer types. A value's number is the value itself.
ghost use Rattle.std.specs.Int.{w8, w16, w32, w64, w128};
ghost use Rattle.element_core.specs.Numberings.{signed, unsigned, signed-numbering, unsigned-numbering};

use crate::element::Element;

impl Element for i8 {
    ghost numbers = { signed w8 };

    fn min_value() -> i8 {
        i8::MIN
    }

    fn max_value() -> i8 {
        i8::MAX
    }

    fn in_type(self) {}

    fn successor(self) -> Option<i8> {
        self.checked_add(1)
    }

    fn predecessor(self) -> Option<i8> {
        self.checked_sub(1)
    }

    fn steps_to(self, end: i8) -> usize {
        self.abs_diff(end) as usize
    }

    ghost numbered = { signed-numbering w8 };
}

impl Element for i16 {
    ghost numbers = { signed w16 };

    fn min_value() -> i16 {
        i16::MIN
    }

    fn max_value() -> i16 {
        i16::MAX
    }

    fn in_type(self) {}

    fn successor(self) -> Option<i16> {
        self.checked_add(1)
    }

    fn predecessor(self) -> Option<i16> {
        self.checked_sub(1)
    }

    fn steps_to(self, end: i16) -> usize {
        self.abs_diff(end) as usize
    }

    ghost numbered = { signed-numbering w16 };
}

impl Element for i32 {
    ghost numbers = { signed w32 };

    fn min_value() -> i32 {
        i32::MIN
    }

    fn max_value() -> i32 {
        i32::MAX
    }

    fn in_type(self) {}

    fn successor(self) -> Option<i32> {
        self.checked_add(1)
    }

    fn predecessor(self) -> Option<i32> {
        self.checked_sub(1)
    }

    fn steps_to(self, end: i32) -> usize {
        self.abs_diff(end) as usize
    }

    ghost numbered = { signed-numbering w32 };
}

impl Element for i64 {
    ghost numbers = { signed w64 };

    fn min_value() -> i64 {
        i64::MIN
    }

    fn max_value() -> i64 {
        i64::MAX
    }

    fn in_type(self) {}

    fn successor(self) -> Option<i64> {
        self.checked_add(1)
    }

    fn predecessor(self) -> Option<i64> {
        self.checked_sub(1)
    }

    fn steps_to(self, end: i64) -> usize {
        self.abs_diff(end) as usize
    }

    ghost numbered = { signed-numbering w64 };
}

impl Element for i128 {
    ghost numbers = { signed w128 };

    fn min_value() -> i128 {
        i128::MIN
    }

    fn max_value() -> i128 {
        i128::MAX
    }

    fn in_type(self) {}

    fn successor(self) -> Option<i128> {
        self.checked_add(1)
    }

    fn predecessor(self) -> Option<i128> {
        self.checked_sub(1)
    }

    fn steps_to(self, end: i128) -> usize {
        self.abs_diff(end).min(usize::MAX as u128) as usize
    }

    ghost numbered = { signed-numbering w128 };
}

impl Element for isize {
    ghost numbers = { signed w64 };

    fn min_value() -> isize {
        isize::MIN
    }

    fn max_value() -> isize {
        isize::MAX
    }

    fn in_type(self) {}

    fn successor(self) -> Option<isize> {
        self.checked_add(1)
    }

    fn predecessor(self) -> Option<isize> {
        self.checked_sub(1)
    }

    fn steps_to(self, end: isize) -> usize {
        self.abs_diff(end) as usize
    }

    ghost numbered = { signed-numbering w64 };
}

impl Element for u8 {
    ghost numbers = { unsigned 8 };

    fn min_value() -> u8 {
        u8::MIN
    }

    fn max_value() -> u8 {
        u8::MAX
    }

    fn in_type(self) {}

    fn successor(self) -> Option<u8> {
        self.checked_add(1)
    }

    fn predecessor(self) -> Option<u8> {
        self.checked_sub(1)
    }

    fn steps_to(self, end: u8) -> usize {
        self.abs_diff(end) as usize
    }

    ghost numbered = { unsigned-numbering 8 };
}

impl Element for u16 {
    ghost numbers = { unsigned 16 };

    fn min_value() -> u16 {
        u16::MIN
    }

    fn max_value() -> u16 {
        u16::MAX
    }

    fn in_type(self) {}

    fn successor(self) -> Option<u16> {
        self.checked_add(1)
    }

    fn predecessor(self) -> Option<u16> {
        self.checked_sub(1)
    }

    fn steps_to(self, end: u16) -> usize {
        self.abs_diff(end) as usize
    }

    ghost numbered = { unsigned-numbering 16 };
}

impl Element for u32 {
    ghost numbers = { unsigned 32 };

    fn min_value() -> u32 {
        u32::MIN
    }

    fn max_value() -> u32 {
        u32::MAX
    }

    fn in_type(self) {}

    fn successor(self) -> Option<u32> {
        self.checked_add(1)
    }

    fn predecessor(self) -> Option<u32> {
        self.checked_sub(1)
    }

    fn steps_to(self, end: u32) -> usize {
        self.abs_diff(end) as usize
    }

    ghost numbered = { unsigned-numbering 32 };
}

impl Element for u64 {
    ghost numbers = { unsigned 64 };

    fn min_value() -> u64 {
        u64::MIN
    }

    fn max_value() -> u64 {
        u64::MAX
    }

    fn in_type(self) {}

    fn successor(self) -> Option<u64> {
        self.checked_add(1)
    }

    fn predecessor(self) -> Option<u64> {
        self.checked_sub(1)
    }

    fn steps_to(self, end: u64) -> usize {
        self.abs_diff(end) as usize
    }

    ghost numbered = { unsigned-numbering 64 };
}

impl Element for u128 {
    ghost numbers = { unsigned 128 };

    fn min_value() -> u128 {
        u128::MIN
    }

    fn max_value() -> u128 {
        u128::MAX
    }

    fn in_type(self) {}

    fn successor(self) -> Option<u128> {
        self.checked_add(1)
    }

    fn predecessor(self) -> Option<u128> {
        self.checked_sub(1)
    }

    fn steps_to(self, end: u128) -> usize {
        (end - self).min(usize::MAX as u128) as usize
    }

    ghost numbered = { unsigned-numbering 128 };
}

impl Element for usize {
    ghost numbers = { unsigned 64 };

    fn min_value() -> usize {
        usize::MIN
    }

    fn max_value() -> usize {
        usize::MAX
    }

    fn in_type(self) {}

    fn successor(self) -> Option<usize> {
        self.checked_add(1)
    }

    fn predecessor(self) -> Option<usize> {
        self.checked_sub(1)
    }

    fn steps_to(self, end: usize) -> usize {
        self.abs_diff(end) as usize
    }

    ghost numbered = { unsigned-numbering 64 };
}
