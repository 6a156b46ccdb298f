//! Whole numbers in JSON values and in fields, each type within its own bounds.
ghost use Rattle.std.specs.Prelude.{◌≡◌};

use crate::data::{ReadData, WriteData};
use crate::faults::ReadFault;
use crate::field_writers::{WriteField, push_field};
use crate::fields::ReadField;
use crate::readers::ReadPairs;
use crate::tuples::only_field;
use crate::whole_numbers::{signed_number_of, up_to, within};
use serde_json::Value;
use std::alloc::Global;
use web_texts::{Fail, NoMemory, Pair, number_of};

/// A whole number from 0 to 255.
impl ReadData for u8 {
    ghost use Rattle.web_codec.specs.WholeNumbers.{u8_of};

    ghost read = { u8_of };

    fn read_data(alloc: Global, value: &Value) -> Result<u8, Fail<ReadFault>> {
        let number = value.as_u64();
        Ok(up_to(alloc, number, u8::MAX as u64)? as u8)
    }
}

impl WriteData for u8 {
    ghost use Rattle.web_codec.specs.DataWriters.{data_of_unsigned, unsigned_no_float};

    ghost written = { data_of_unsigned };

    ghost no_float = { unsigned_no_float };

    fn write_data(&self, _alloc: Global) -> Result<Value, NoMemory> {
        Ok(Value::from(*self))
    }
}

/// Digits alone, of a number from 0 to 255.
impl ReadField for u8 {
    ghost use Rattle.web_codec.specs.WholeNumbers.{u8_field};

    ghost field = { u8_field };

    fn read_field(alloc: Global, text: &str) -> Result<u8, Fail<ReadFault>> {
        let number = number_of(text.as_bytes(), u64::MAX);
        Ok(up_to(alloc, number, u8::MAX as u64)? as u8)
    }
}

/// The number of the only pair.
impl ReadPairs for u8 {
    ghost use Rattle.std.specs.Prelude.{◌≡◌};
    ghost use Rattle.web_codec.specs.FieldReaders.{only_field};
    ghost use Rattle.web_codec.specs.WholeNumbers.{u8_field};

    ghost reads_pairs = { λ pairs x. x ≡ only_field u8_field pairs };

    fn read_pairs(alloc: Global, pairs: &[Pair]) -> Result<u8, Fail<ReadFault>> {
        only_field(alloc, pairs)
    }
}

impl WriteField for u8 {
    ghost use Rattle.web_codec.specs.FieldWriters.{texts_of_unsigned};

    ghost texts = { texts_of_unsigned };

    fn write_field(
        &self,
        alloc: Global,
        name: &str,
        pairs: &mut Vec<Pair>,
    ) -> Result<(), NoMemory> {
        let number = *self;
        push_field(alloc, name, format!(in alloc; "{number}")?.as_str(), pairs)
    }
}

/// A whole number from 0 to 65535.
impl ReadData for u16 {
    ghost use Rattle.web_codec.specs.WholeNumbers.{u16_of};

    ghost read = { u16_of };

    fn read_data(alloc: Global, value: &Value) -> Result<u16, Fail<ReadFault>> {
        let number = value.as_u64();
        Ok(up_to(alloc, number, u16::MAX as u64)? as u16)
    }
}

impl WriteData for u16 {
    ghost use Rattle.web_codec.specs.DataWriters.{data_of_unsigned, unsigned_no_float};

    ghost written = { data_of_unsigned };

    ghost no_float = { unsigned_no_float };

    fn write_data(&self, _alloc: Global) -> Result<Value, NoMemory> {
        Ok(Value::from(*self))
    }
}

/// Digits alone, of a number from 0 to 65535.
impl ReadField for u16 {
    ghost use Rattle.web_codec.specs.WholeNumbers.{u16_field};

    ghost field = { u16_field };

    fn read_field(alloc: Global, text: &str) -> Result<u16, Fail<ReadFault>> {
        let number = number_of(text.as_bytes(), u64::MAX);
        Ok(up_to(alloc, number, u16::MAX as u64)? as u16)
    }
}

/// The number of the only pair.
impl ReadPairs for u16 {
    ghost use Rattle.std.specs.Prelude.{◌≡◌};
    ghost use Rattle.web_codec.specs.FieldReaders.{only_field};
    ghost use Rattle.web_codec.specs.WholeNumbers.{u16_field};

    ghost reads_pairs = { λ pairs x. x ≡ only_field u16_field pairs };

    fn read_pairs(alloc: Global, pairs: &[Pair]) -> Result<u16, Fail<ReadFault>> {
        only_field(alloc, pairs)
    }
}

impl WriteField for u16 {
    ghost use Rattle.web_codec.specs.FieldWriters.{texts_of_unsigned};

    ghost texts = { texts_of_unsigned };

    fn write_field(
        &self,
        alloc: Global,
        name: &str,
        pairs: &mut Vec<Pair>,
    ) -> Result<(), NoMemory> {
        let number = *self;
        push_field(alloc, name, format!(in alloc; "{number}")?.as_str(), pairs)
    }
}

/// A whole number from 0 to 4294967295.
impl ReadData for u32 {
    ghost use Rattle.web_codec.specs.WholeNumbers.{u32_of};

    ghost read = { u32_of };

    fn read_data(alloc: Global, value: &Value) -> Result<u32, Fail<ReadFault>> {
        let number = value.as_u64();
        Ok(up_to(alloc, number, u32::MAX as u64)? as u32)
    }
}

impl WriteData for u32 {
    ghost use Rattle.web_codec.specs.DataWriters.{data_of_unsigned, unsigned_no_float};

    ghost written = { data_of_unsigned };

    ghost no_float = { unsigned_no_float };

    fn write_data(&self, _alloc: Global) -> Result<Value, NoMemory> {
        Ok(Value::from(*self))
    }
}

/// Digits alone, of a number from 0 to 4294967295.
impl ReadField for u32 {
    ghost use Rattle.web_codec.specs.WholeNumbers.{u32_field};

    ghost field = { u32_field };

    fn read_field(alloc: Global, text: &str) -> Result<u32, Fail<ReadFault>> {
        let number = number_of(text.as_bytes(), u64::MAX);
        Ok(up_to(alloc, number, u32::MAX as u64)? as u32)
    }
}

/// The number of the only pair.
impl ReadPairs for u32 {
    ghost use Rattle.std.specs.Prelude.{◌≡◌};
    ghost use Rattle.web_codec.specs.FieldReaders.{only_field};
    ghost use Rattle.web_codec.specs.WholeNumbers.{u32_field};

    ghost reads_pairs = { λ pairs x. x ≡ only_field u32_field pairs };

    fn read_pairs(alloc: Global, pairs: &[Pair]) -> Result<u32, Fail<ReadFault>> {
        only_field(alloc, pairs)
    }
}

impl WriteField for u32 {
    ghost use Rattle.web_codec.specs.FieldWriters.{texts_of_unsigned};

    ghost texts = { texts_of_unsigned };

    fn write_field(
        &self,
        alloc: Global,
        name: &str,
        pairs: &mut Vec<Pair>,
    ) -> Result<(), NoMemory> {
        let number = *self;
        push_field(alloc, name, format!(in alloc; "{number}")?.as_str(), pairs)
    }
}

/// A whole number from 0 to 2^64 - 1.
impl ReadData for u64 {
    ghost use Rattle.web_codec.specs.WholeNumbers.{u64_of};

    ghost read = { u64_of };

    fn read_data(alloc: Global, value: &Value) -> Result<u64, Fail<ReadFault>> {
        let number = value.as_u64();
        Ok(up_to(alloc, number, u64::MAX as u64)? as u64)
    }
}

impl WriteData for u64 {
    ghost use Rattle.web_codec.specs.DataWriters.{data_of_unsigned, unsigned_no_float};

    ghost written = { data_of_unsigned };

    ghost no_float = { unsigned_no_float };

    fn write_data(&self, _alloc: Global) -> Result<Value, NoMemory> {
        Ok(Value::from(*self))
    }
}

/// Digits alone, of a number from 0 to 2^64 - 1.
impl ReadField for u64 {
    ghost use Rattle.web_codec.specs.WholeNumbers.{u64_field};

    ghost field = { u64_field };

    fn read_field(alloc: Global, text: &str) -> Result<u64, Fail<ReadFault>> {
        let number = number_of(text.as_bytes(), u64::MAX);
        Ok(up_to(alloc, number, u64::MAX as u64)? as u64)
    }
}

/// The number of the only pair.
impl ReadPairs for u64 {
    ghost use Rattle.std.specs.Prelude.{◌≡◌};
    ghost use Rattle.web_codec.specs.FieldReaders.{only_field};
    ghost use Rattle.web_codec.specs.WholeNumbers.{u64_field};

    ghost reads_pairs = { λ pairs x. x ≡ only_field u64_field pairs };

    fn read_pairs(alloc: Global, pairs: &[Pair]) -> Result<u64, Fail<ReadFault>> {
        only_field(alloc, pairs)
    }
}

impl WriteField for u64 {
    ghost use Rattle.web_codec.specs.FieldWriters.{texts_of_unsigned};

    ghost texts = { texts_of_unsigned };

    fn write_field(
        &self,
        alloc: Global,
        name: &str,
        pairs: &mut Vec<Pair>,
    ) -> Result<(), NoMemory> {
        let number = *self;
        push_field(alloc, name, format!(in alloc; "{number}")?.as_str(), pairs)
    }
}

/// A whole number from 0 to 2^64 - 1.
impl ReadData for usize {
    ghost use Rattle.web_codec.specs.WholeNumbers.{usize_of};

    ghost read = { usize_of };

    fn read_data(alloc: Global, value: &Value) -> Result<usize, Fail<ReadFault>> {
        let number = value.as_u64();
        Ok(up_to(alloc, number, usize::MAX as u64)? as usize)
    }
}

impl WriteData for usize {
    ghost use Rattle.web_codec.specs.DataWriters.{data_of_unsigned, unsigned_no_float};

    ghost written = { data_of_unsigned };

    ghost no_float = { unsigned_no_float };

    fn write_data(&self, _alloc: Global) -> Result<Value, NoMemory> {
        Ok(Value::from(*self))
    }
}

/// Digits alone, of a number from 0 to 2^64 - 1.
impl ReadField for usize {
    ghost use Rattle.web_codec.specs.WholeNumbers.{usize_field};

    ghost field = { usize_field };

    fn read_field(alloc: Global, text: &str) -> Result<usize, Fail<ReadFault>> {
        let number = number_of(text.as_bytes(), u64::MAX);
        Ok(up_to(alloc, number, usize::MAX as u64)? as usize)
    }
}

/// The number of the only pair.
impl ReadPairs for usize {
    ghost use Rattle.std.specs.Prelude.{◌≡◌};
    ghost use Rattle.web_codec.specs.FieldReaders.{only_field};
    ghost use Rattle.web_codec.specs.WholeNumbers.{usize_field};

    ghost reads_pairs = { λ pairs x. x ≡ only_field usize_field pairs };

    fn read_pairs(alloc: Global, pairs: &[Pair]) -> Result<usize, Fail<ReadFault>> {
        only_field(alloc, pairs)
    }
}

impl WriteField for usize {
    ghost use Rattle.web_codec.specs.FieldWriters.{texts_of_unsigned};

    ghost texts = { texts_of_unsigned };

    fn write_field(
        &self,
        alloc: Global,
        name: &str,
        pairs: &mut Vec<Pair>,
    ) -> Result<(), NoMemory> {
        let number = *self;
        push_field(alloc, name, format!(in alloc; "{number}")?.as_str(), pairs)
    }
}

/// A whole number from -128 to 127.
impl ReadData for i8 {
    ghost use Rattle.web_codec.specs.WholeNumbers.{i8_of};

    ghost read = { i8_of };

    fn read_data(alloc: Global, value: &Value) -> Result<i8, Fail<ReadFault>> {
        let number = value.as_i64();
        Ok(within(alloc, number, i8::MIN as i64, i8::MAX as i64)? as i8)
    }
}

impl WriteData for i8 {
    ghost use Rattle.web_codec.specs.DataWriters.{data_of_signed, signed_no_float};

    ghost written = { data_of_signed };

    ghost no_float = { signed_no_float };

    fn write_data(&self, _alloc: Global) -> Result<Value, NoMemory> {
        Ok(Value::from(*self))
    }
}

/// Digits alone, before which a minus may stand, of a number from -128 to 127.
impl ReadField for i8 {
    ghost use Rattle.web_codec.specs.WholeNumbers.{i8_field};

    ghost field = { i8_field };

    fn read_field(alloc: Global, text: &str) -> Result<i8, Fail<ReadFault>> {
        let number = signed_number_of(text.as_bytes());
        Ok(within(alloc, number, i8::MIN as i64, i8::MAX as i64)? as i8)
    }
}

/// The number of the only pair.
impl ReadPairs for i8 {
    ghost use Rattle.std.specs.Prelude.{◌≡◌};
    ghost use Rattle.web_codec.specs.FieldReaders.{only_field};
    ghost use Rattle.web_codec.specs.WholeNumbers.{i8_field};

    ghost reads_pairs = { λ pairs x. x ≡ only_field i8_field pairs };

    fn read_pairs(alloc: Global, pairs: &[Pair]) -> Result<i8, Fail<ReadFault>> {
        only_field(alloc, pairs)
    }
}

impl WriteField for i8 {
    ghost use Rattle.web_codec.specs.FieldWriters.{texts_of_signed};

    ghost texts = { texts_of_signed };

    fn write_field(
        &self,
        alloc: Global,
        name: &str,
        pairs: &mut Vec<Pair>,
    ) -> Result<(), NoMemory> {
        let number = *self;
        push_field(alloc, name, format!(in alloc; "{number}")?.as_str(), pairs)
    }
}

/// A whole number from -32768 to 32767.
impl ReadData for i16 {
    ghost use Rattle.web_codec.specs.WholeNumbers.{i16_of};

    ghost read = { i16_of };

    fn read_data(alloc: Global, value: &Value) -> Result<i16, Fail<ReadFault>> {
        let number = value.as_i64();
        Ok(within(alloc, number, i16::MIN as i64, i16::MAX as i64)? as i16)
    }
}

impl WriteData for i16 {
    ghost use Rattle.web_codec.specs.DataWriters.{data_of_signed, signed_no_float};

    ghost written = { data_of_signed };

    ghost no_float = { signed_no_float };

    fn write_data(&self, _alloc: Global) -> Result<Value, NoMemory> {
        Ok(Value::from(*self))
    }
}

/// Digits alone, before which a minus may stand, of a number from -32768 to 32767.
impl ReadField for i16 {
    ghost use Rattle.web_codec.specs.WholeNumbers.{i16_field};

    ghost field = { i16_field };

    fn read_field(alloc: Global, text: &str) -> Result<i16, Fail<ReadFault>> {
        let number = signed_number_of(text.as_bytes());
        Ok(within(alloc, number, i16::MIN as i64, i16::MAX as i64)? as i16)
    }
}

/// The number of the only pair.
impl ReadPairs for i16 {
    ghost use Rattle.std.specs.Prelude.{◌≡◌};
    ghost use Rattle.web_codec.specs.FieldReaders.{only_field};
    ghost use Rattle.web_codec.specs.WholeNumbers.{i16_field};

    ghost reads_pairs = { λ pairs x. x ≡ only_field i16_field pairs };

    fn read_pairs(alloc: Global, pairs: &[Pair]) -> Result<i16, Fail<ReadFault>> {
        only_field(alloc, pairs)
    }
}

impl WriteField for i16 {
    ghost use Rattle.web_codec.specs.FieldWriters.{texts_of_signed};

    ghost texts = { texts_of_signed };

    fn write_field(
        &self,
        alloc: Global,
        name: &str,
        pairs: &mut Vec<Pair>,
    ) -> Result<(), NoMemory> {
        let number = *self;
        push_field(alloc, name, format!(in alloc; "{number}")?.as_str(), pairs)
    }
}

/// A whole number from -2147483648 to 2147483647.
impl ReadData for i32 {
    ghost use Rattle.web_codec.specs.WholeNumbers.{i32_of};

    ghost read = { i32_of };

    fn read_data(alloc: Global, value: &Value) -> Result<i32, Fail<ReadFault>> {
        let number = value.as_i64();
        Ok(within(alloc, number, i32::MIN as i64, i32::MAX as i64)? as i32)
    }
}

impl WriteData for i32 {
    ghost use Rattle.web_codec.specs.DataWriters.{data_of_signed, signed_no_float};

    ghost written = { data_of_signed };

    ghost no_float = { signed_no_float };

    fn write_data(&self, _alloc: Global) -> Result<Value, NoMemory> {
        Ok(Value::from(*self))
    }
}

/// Digits alone, before which a minus may stand, of a number from -2147483648 to 2147483647.
impl ReadField for i32 {
    ghost use Rattle.web_codec.specs.WholeNumbers.{i32_field};

    ghost field = { i32_field };

    fn read_field(alloc: Global, text: &str) -> Result<i32, Fail<ReadFault>> {
        let number = signed_number_of(text.as_bytes());
        Ok(within(alloc, number, i32::MIN as i64, i32::MAX as i64)? as i32)
    }
}

/// The number of the only pair.
impl ReadPairs for i32 {
    ghost use Rattle.std.specs.Prelude.{◌≡◌};
    ghost use Rattle.web_codec.specs.FieldReaders.{only_field};
    ghost use Rattle.web_codec.specs.WholeNumbers.{i32_field};

    ghost reads_pairs = { λ pairs x. x ≡ only_field i32_field pairs };

    fn read_pairs(alloc: Global, pairs: &[Pair]) -> Result<i32, Fail<ReadFault>> {
        only_field(alloc, pairs)
    }
}

impl WriteField for i32 {
    ghost use Rattle.web_codec.specs.FieldWriters.{texts_of_signed};

    ghost texts = { texts_of_signed };

    fn write_field(
        &self,
        alloc: Global,
        name: &str,
        pairs: &mut Vec<Pair>,
    ) -> Result<(), NoMemory> {
        let number = *self;
        push_field(alloc, name, format!(in alloc; "{number}")?.as_str(), pairs)
    }
}

/// A whole number from -2^63 to 2^63 - 1.
impl ReadData for i64 {
    ghost use Rattle.web_codec.specs.WholeNumbers.{i64_of};

    ghost read = { i64_of };

    fn read_data(alloc: Global, value: &Value) -> Result<i64, Fail<ReadFault>> {
        let number = value.as_i64();
        Ok(within(alloc, number, i64::MIN as i64, i64::MAX as i64)? as i64)
    }
}

impl WriteData for i64 {
    ghost use Rattle.web_codec.specs.DataWriters.{data_of_signed, signed_no_float};

    ghost written = { data_of_signed };

    ghost no_float = { signed_no_float };

    fn write_data(&self, _alloc: Global) -> Result<Value, NoMemory> {
        Ok(Value::from(*self))
    }
}

/// Digits alone, before which a minus may stand, of a number from -2^63 to 2^63 - 1.
impl ReadField for i64 {
    ghost use Rattle.web_codec.specs.WholeNumbers.{i64_field};

    ghost field = { i64_field };

    fn read_field(alloc: Global, text: &str) -> Result<i64, Fail<ReadFault>> {
        let number = signed_number_of(text.as_bytes());
        Ok(within(alloc, number, i64::MIN as i64, i64::MAX as i64)? as i64)
    }
}

/// The number of the only pair.
impl ReadPairs for i64 {
    ghost use Rattle.std.specs.Prelude.{◌≡◌};
    ghost use Rattle.web_codec.specs.FieldReaders.{only_field};
    ghost use Rattle.web_codec.specs.WholeNumbers.{i64_field};

    ghost reads_pairs = { λ pairs x. x ≡ only_field i64_field pairs };

    fn read_pairs(alloc: Global, pairs: &[Pair]) -> Result<i64, Fail<ReadFault>> {
        only_field(alloc, pairs)
    }
}

impl WriteField for i64 {
    ghost use Rattle.web_codec.specs.FieldWriters.{texts_of_signed};

    ghost texts = { texts_of_signed };

    fn write_field(
        &self,
        alloc: Global,
        name: &str,
        pairs: &mut Vec<Pair>,
    ) -> Result<(), NoMemory> {
        let number = *self;
        push_field(alloc, name, format!(in alloc; "{number}")?.as_str(), pairs)
    }
}

/// A whole number from -2^63 to 2^63 - 1.
impl ReadData for isize {
    ghost use Rattle.web_codec.specs.WholeNumbers.{isize_of};

    ghost read = { isize_of };

    fn read_data(alloc: Global, value: &Value) -> Result<isize, Fail<ReadFault>> {
        let number = value.as_i64();
        Ok(within(alloc, number, isize::MIN as i64, isize::MAX as i64)? as isize)
    }
}

impl WriteData for isize {
    ghost use Rattle.web_codec.specs.DataWriters.{data_of_signed, signed_no_float};

    ghost written = { data_of_signed };

    ghost no_float = { signed_no_float };

    fn write_data(&self, _alloc: Global) -> Result<Value, NoMemory> {
        Ok(Value::from(*self))
    }
}

/// Digits alone, before which a minus may stand, of a number from -2^63 to 2^63 - 1.
impl ReadField for isize {
    ghost use Rattle.web_codec.specs.WholeNumbers.{isize_field};

    ghost field = { isize_field };

    fn read_field(alloc: Global, text: &str) -> Result<isize, Fail<ReadFault>> {
        let number = signed_number_of(text.as_bytes());
        Ok(within(alloc, number, isize::MIN as i64, isize::MAX as i64)? as isize)
    }
}

/// The number of the only pair.
impl ReadPairs for isize {
    ghost use Rattle.std.specs.Prelude.{◌≡◌};
    ghost use Rattle.web_codec.specs.FieldReaders.{only_field};
    ghost use Rattle.web_codec.specs.WholeNumbers.{isize_field};

    ghost reads_pairs = { λ pairs x. x ≡ only_field isize_field pairs };

    fn read_pairs(alloc: Global, pairs: &[Pair]) -> Result<isize, Fail<ReadFault>> {
        only_field(alloc, pairs)
    }
}

impl WriteField for isize {
    ghost use Rattle.web_codec.specs.FieldWriters.{texts_of_signed};

    ghost texts = { texts_of_signed };

    fn write_field(
        &self,
        alloc: Global,
        name: &str,
        pairs: &mut Vec<Pair>,
    ) -> Result<(), NoMemory> {
        let number = *self;
        push_field(alloc, name, format!(in alloc; "{number}")?.as_str(), pairs)
    }
}
