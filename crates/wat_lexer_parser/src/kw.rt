//! Types of the standard keywords.
//!
//! A type has the name of its keyword, with `_` for `-`, `.` and `:`. A `_` is appended to reserved
//! words of Rust, and to `bool` and `core`. The types of `string-encoding=utf8`,
//! `string-encoding=utf16` and `string-encoding=latin1+utf16` are `string_utf8`, `string_utf16` and
//! `string_latin1_utf16`.
use crate::token::Keyword;
use wat_words::Std;

/// The keyword `after`.
pub type after = Keyword<Std<0>>;
/// The keyword `alias`.
pub type alias = Keyword<Std<1>>;
/// The keyword `any`.
pub type any = Keyword<Std<2>>;
/// The keyword `anyref`.
pub type anyref = Keyword<Std<3>>;
/// The keyword `arg`.
pub type arg = Keyword<Std<4>>;
/// The keyword `array`.
pub type array = Keyword<Std<5>>;
/// The keyword `arrayref`.
pub type arrayref = Keyword<Std<6>>;
/// The keyword `assert_exception`.
pub type assert_exception = Keyword<Std<7>>;
/// The keyword `assert_exhaustion`.
pub type assert_exhaustion = Keyword<Std<8>>;
/// The keyword `assert_invalid`.
pub type assert_invalid = Keyword<Std<9>>;
/// The keyword `assert_invalid_custom`.
pub type assert_invalid_custom = Keyword<Std<10>>;
/// The keyword `assert_malformed`.
pub type assert_malformed = Keyword<Std<11>>;
/// The keyword `assert_malformed_custom`.
pub type assert_malformed_custom = Keyword<Std<12>>;
/// The keyword `assert_return`.
pub type assert_return = Keyword<Std<13>>;
/// The keyword `assert_trap`.
pub type assert_trap = Keyword<Std<14>>;
/// The keyword `assert_unlinkable`.
pub type assert_unlinkable = Keyword<Std<15>>;
/// The keyword `assert_suspension`.
pub type assert_suspension = Keyword<Std<16>>;
/// The keyword `before`.
pub type before = Keyword<Std<17>>;
/// The keyword `binary`.
pub type binary = Keyword<Std<18>>;
/// The keyword `block`.
pub type block = Keyword<Std<19>>;
/// The keyword `borrow`.
pub type borrow = Keyword<Std<20>>;
/// The keyword `catch`.
pub type catch = Keyword<Std<21>>;
/// The keyword `catch_ref`.
pub type catch_ref = Keyword<Std<22>>;
/// The keyword `catch_all`.
pub type catch_all = Keyword<Std<23>>;
/// The keyword `catch_all_ref`.
pub type catch_all_ref = Keyword<Std<24>>;
/// The keyword `code`.
pub type code = Keyword<Std<25>>;
/// The keyword `cont`.
pub type cont = Keyword<Std<26>>;
/// The keyword `contref`.
pub type contref = Keyword<Std<27>>;
/// The keyword `component`.
pub type component = Keyword<Std<28>>;
/// The keyword `data`.
pub type data = Keyword<Std<29>>;
/// The keyword `declare`.
pub type declare = Keyword<Std<30>>;
/// The keyword `delegate`.
pub type delegate = Keyword<Std<31>>;
/// The keyword `descriptor`.
pub type descriptor = Keyword<Std<32>>;
/// The keyword `describes`.
pub type describes = Keyword<Std<33>>;
/// The keyword `do`.
pub type do_ = Keyword<Std<34>>;
/// The keyword `dtor`.
pub type dtor = Keyword<Std<35>>;
/// The keyword `elem`.
pub type elem = Keyword<Std<36>>;
/// The keyword `end`.
pub type end = Keyword<Std<37>>;
/// The keyword `entry`.
pub type entry = Keyword<Std<38>>;
/// The keyword `exact`.
pub type exact = Keyword<Std<39>>;
/// The keyword `tag`.
pub type tag = Keyword<Std<40>>;
/// The keyword `exn`.
pub type exn = Keyword<Std<41>>;
/// The keyword `exnref`.
pub type exnref = Keyword<Std<42>>;
/// The keyword `export`.
pub type export = Keyword<Std<43>>;
/// The keyword `extern`.
pub type extern_ = Keyword<Std<44>>;
/// The keyword `externref`.
pub type externref = Keyword<Std<45>>;
/// The keyword `eq`.
pub type eq = Keyword<Std<46>>;
/// The keyword `eqref`.
pub type eqref = Keyword<Std<47>>;
/// The keyword `f32`.
pub type f32 = Keyword<Std<48>>;
/// The keyword `f32x4`.
pub type f32x4 = Keyword<Std<49>>;
/// The keyword `f64`.
pub type f64 = Keyword<Std<50>>;
/// The keyword `f64x2`.
pub type f64x2 = Keyword<Std<51>>;
/// The keyword `field`.
pub type field = Keyword<Std<52>>;
/// The keyword `first`.
pub type first = Keyword<Std<53>>;
/// The keyword `func`.
pub type func = Keyword<Std<54>>;
/// The keyword `funcref`.
pub type funcref = Keyword<Std<55>>;
/// The keyword `get`.
pub type get = Keyword<Std<56>>;
/// The keyword `global`.
pub type global = Keyword<Std<57>>;
/// The keyword `i16`.
pub type i16 = Keyword<Std<58>>;
/// The keyword `i16x8`.
pub type i16x8 = Keyword<Std<59>>;
/// The keyword `i31`.
pub type i31 = Keyword<Std<60>>;
/// The keyword `i31ref`.
pub type i31ref = Keyword<Std<61>>;
/// The keyword `i32`.
pub type i32 = Keyword<Std<62>>;
/// The keyword `i32x4`.
pub type i32x4 = Keyword<Std<63>>;
/// The keyword `i64`.
pub type i64 = Keyword<Std<64>>;
/// The keyword `i64x2`.
pub type i64x2 = Keyword<Std<65>>;
/// The keyword `i8`.
pub type i8 = Keyword<Std<66>>;
/// The keyword `i8x16`.
pub type i8x16 = Keyword<Std<67>>;
/// The keyword `import`.
pub type import = Keyword<Std<68>>;
/// The keyword `implements`.
pub type implements = Keyword<Std<69>>;
/// The keyword `instance`.
pub type instance = Keyword<Std<70>>;
/// The keyword `instantiate`.
pub type instantiate = Keyword<Std<71>>;
/// The keyword `interface`.
pub type interface = Keyword<Std<72>>;
/// The keyword `invoke`.
pub type invoke = Keyword<Std<73>>;
/// The keyword `item`.
pub type item = Keyword<Std<74>>;
/// The keyword `last`.
pub type last = Keyword<Std<75>>;
/// The keyword `local`.
pub type local = Keyword<Std<76>>;
/// The keyword `memory`.
pub type memory = Keyword<Std<77>>;
/// The keyword `module`.
pub type module = Keyword<Std<78>>;
/// The keyword `modulecode`.
pub type modulecode = Keyword<Std<79>>;
/// The keyword `nan:arithmetic`.
pub type nan_arithmetic = Keyword<Std<80>>;
/// The keyword `nan:canonical`.
pub type nan_canonical = Keyword<Std<81>>;
/// The keyword `nocont`.
pub type nocont = Keyword<Std<82>>;
/// The keyword `nofunc`.
pub type nofunc = Keyword<Std<83>>;
/// The keyword `noextern`.
pub type noextern = Keyword<Std<84>>;
/// The keyword `noexn`.
pub type noexn = Keyword<Std<85>>;
/// The keyword `none`.
pub type none = Keyword<Std<86>>;
/// The keyword `null`.
pub type null = Keyword<Std<87>>;
/// The keyword `nullcontref`.
pub type nullcontref = Keyword<Std<88>>;
/// The keyword `nullfuncref`.
pub type nullfuncref = Keyword<Std<89>>;
/// The keyword `nullexternref`.
pub type nullexternref = Keyword<Std<90>>;
/// The keyword `nullexnref`.
pub type nullexnref = Keyword<Std<91>>;
/// The keyword `nullref`.
pub type nullref = Keyword<Std<92>>;
/// The keyword `offset`.
pub type offset = Keyword<Std<93>>;
/// The keyword `on`.
pub type on = Keyword<Std<94>>;
/// The keyword `outer`.
pub type outer = Keyword<Std<95>>;
/// The keyword `own`.
pub type own = Keyword<Std<96>>;
/// The keyword `pagesize`.
pub type pagesize = Keyword<Std<97>>;
/// The keyword `param`.
pub type param = Keyword<Std<98>>;
/// The keyword `parent`.
pub type parent = Keyword<Std<99>>;
/// The keyword `passive`.
pub type passive = Keyword<Std<100>>;
/// The keyword `quote`.
pub type quote = Keyword<Std<101>>;
/// The keyword `else`.
pub type else_ = Keyword<Std<102>>;
/// The keyword `if`.
pub type if_ = Keyword<Std<103>>;
/// The keyword `loop`.
pub type loop_ = Keyword<Std<104>>;
/// The keyword `mut`.
pub type mut_ = Keyword<Std<105>>;
/// The keyword `type`.
pub type type_ = Keyword<Std<106>>;
/// The keyword `ref`.
pub type ref_ = Keyword<Std<107>>;
/// The keyword `ref.func`.
pub type ref_func = Keyword<Std<108>>;
/// The keyword `ref.null`.
pub type ref_null = Keyword<Std<109>>;
/// The keyword `register`.
pub type register = Keyword<Std<110>>;
/// The keyword `rec`.
pub type rec = Keyword<Std<111>>;
/// The keyword `acqrel`.
pub type acqrel = Keyword<Std<112>>;
/// The keyword `rep`.
pub type rep = Keyword<Std<113>>;
/// The keyword `resource`.
pub type resource = Keyword<Std<114>>;
/// The keyword `resource.new`.
pub type resource_new = Keyword<Std<115>>;
/// The keyword `resource.drop`.
pub type resource_drop = Keyword<Std<116>>;
/// The keyword `resource.rep`.
pub type resource_rep = Keyword<Std<117>>;
/// The keyword `result`.
pub type result = Keyword<Std<118>>;
/// The keyword `seqcst`.
pub type seqcst = Keyword<Std<119>>;
/// The keyword `shared`.
pub type shared = Keyword<Std<120>>;
/// The keyword `start`.
pub type start = Keyword<Std<121>>;
/// The keyword `sub`.
pub type sub = Keyword<Std<122>>;
/// The keyword `switch`.
pub type switch = Keyword<Std<123>>;
/// The keyword `final`.
pub type final_ = Keyword<Std<124>>;
/// The keyword `table`.
pub type table = Keyword<Std<125>>;
/// The keyword `then`.
pub type then = Keyword<Std<126>>;
/// The keyword `try`.
pub type try_ = Keyword<Std<127>>;
/// The keyword `v128`.
pub type v128 = Keyword<Std<128>>;
/// The keyword `value`.
pub type value = Keyword<Std<129>>;
/// The keyword `s8`.
pub type s8 = Keyword<Std<130>>;
/// The keyword `s16`.
pub type s16 = Keyword<Std<131>>;
/// The keyword `s32`.
pub type s32 = Keyword<Std<132>>;
/// The keyword `s64`.
pub type s64 = Keyword<Std<133>>;
/// The keyword `u8`.
pub type u8 = Keyword<Std<134>>;
/// The keyword `u16`.
pub type u16 = Keyword<Std<135>>;
/// The keyword `u32`.
pub type u32 = Keyword<Std<136>>;
/// The keyword `u64`.
pub type u64 = Keyword<Std<137>>;
/// The keyword `char`.
pub type char = Keyword<Std<138>>;
/// The keyword `case`.
pub type case = Keyword<Std<139>>;
/// The keyword `record`.
pub type record = Keyword<Std<140>>;
/// The keyword `string`.
pub type string = Keyword<Std<141>>;
/// The keyword `bool`.
pub type bool_ = Keyword<Std<142>>;
/// The keyword `float32`.
pub type float32 = Keyword<Std<143>>;
/// The keyword `float64`.
pub type float64 = Keyword<Std<144>>;
/// The keyword `variant`.
pub type variant = Keyword<Std<145>>;
/// The keyword `flags`.
pub type flags = Keyword<Std<146>>;
/// The keyword `option`.
pub type option = Keyword<Std<147>>;
/// The keyword `tuple`.
pub type tuple = Keyword<Std<148>>;
/// The keyword `list`.
pub type list = Keyword<Std<149>>;
/// The keyword `map`.
pub type map = Keyword<Std<150>>;
/// The keyword `error`.
pub type error = Keyword<Std<151>>;
/// The keyword `canon`.
pub type canon = Keyword<Std<152>>;
/// The keyword `lift`.
pub type lift = Keyword<Std<153>>;
/// The keyword `lower`.
pub type lower = Keyword<Std<154>>;
/// The keyword `enum`.
pub type enum_ = Keyword<Std<155>>;
/// The keyword `string-encoding=utf8`.
pub type string_utf8 = Keyword<Std<156>>;
/// The keyword `string-encoding=utf16`.
pub type string_utf16 = Keyword<Std<157>>;
/// The keyword `string-encoding=latin1+utf16`.
pub type string_latin1_utf16 = Keyword<Std<158>>;
/// The keyword `struct`.
pub type struct_ = Keyword<Std<159>>;
/// The keyword `structref`.
pub type structref = Keyword<Std<160>>;
/// The keyword `realloc`.
pub type realloc = Keyword<Std<161>>;
/// The keyword `post-return`.
pub type post_return = Keyword<Std<162>>;
/// The keyword `with`.
pub type with = Keyword<Std<163>>;
/// The keyword `core`.
pub type core_ = Keyword<Std<164>>;
/// The keyword `core-type`.
pub type core_type = Keyword<Std<165>>;
/// The keyword `gc`.
pub type gc = Keyword<Std<166>>;
/// The keyword `true`.
pub type true_ = Keyword<Std<167>>;
/// The keyword `false`.
pub type false_ = Keyword<Std<168>>;
/// The keyword `language`.
pub type language = Keyword<Std<169>>;
/// The keyword `sdk`.
pub type sdk = Keyword<Std<170>>;
/// The keyword `processed-by`.
pub type processed_by = Keyword<Std<171>>;
/// The keyword `mem-info`.
pub type mem_info = Keyword<Std<172>>;
/// The keyword `needed`.
pub type needed = Keyword<Std<173>>;
/// The keyword `export-info`.
pub type export_info = Keyword<Std<174>>;
/// The keyword `import-info`.
pub type import_info = Keyword<Std<175>>;
/// The keyword `runtime-path`.
pub type runtime_path = Keyword<Std<176>>;
/// The keyword `target-arch`.
pub type target_arch = Keyword<Std<177>>;
/// The keyword `thread`.
pub type thread = Keyword<Std<178>>;
/// The keyword `thread.spawn-ref`.
pub type thread_spawn_ref = Keyword<Std<179>>;
/// The keyword `thread.spawn-indirect`.
pub type thread_spawn_indirect = Keyword<Std<180>>;
/// The keyword `thread.available_parallelism`.
pub type thread_available_parallelism = Keyword<Std<181>>;
/// The keyword `backpressure.inc`.
pub type backpressure_inc = Keyword<Std<182>>;
/// The keyword `backpressure.dec`.
pub type backpressure_dec = Keyword<Std<183>>;
/// The keyword `task.return`.
pub type task_return = Keyword<Std<184>>;
/// The keyword `task.cancel`.
pub type task_cancel = Keyword<Std<185>>;
/// The keyword `subtask.drop`.
pub type subtask_drop = Keyword<Std<186>>;
/// The keyword `subtask.cancel`.
pub type subtask_cancel = Keyword<Std<187>>;
/// The keyword `stream.new`.
pub type stream_new = Keyword<Std<188>>;
/// The keyword `stream.read`.
pub type stream_read = Keyword<Std<189>>;
/// The keyword `stream.write`.
pub type stream_write = Keyword<Std<190>>;
/// The keyword `stream.forward`.
pub type stream_forward = Keyword<Std<191>>;
/// The keyword `stream.cancel-read`.
pub type stream_cancel_read = Keyword<Std<192>>;
/// The keyword `stream.cancel-write`.
pub type stream_cancel_write = Keyword<Std<193>>;
/// The keyword `stream.drop-readable`.
pub type stream_drop_readable = Keyword<Std<194>>;
/// The keyword `stream.drop-writable`.
pub type stream_drop_writable = Keyword<Std<195>>;
/// The keyword `future.new`.
pub type future_new = Keyword<Std<196>>;
/// The keyword `future.read`.
pub type future_read = Keyword<Std<197>>;
/// The keyword `future.write`.
pub type future_write = Keyword<Std<198>>;
/// The keyword `future.forward`.
pub type future_forward = Keyword<Std<199>>;
/// The keyword `future.cancel-read`.
pub type future_cancel_read = Keyword<Std<200>>;
/// The keyword `future.cancel-write`.
pub type future_cancel_write = Keyword<Std<201>>;
/// The keyword `future.drop-readable`.
pub type future_drop_readable = Keyword<Std<202>>;
/// The keyword `future.drop-writable`.
pub type future_drop_writable = Keyword<Std<203>>;
/// The keyword `error-context.new`.
pub type error_context_new = Keyword<Std<204>>;
/// The keyword `error-context.debug-message`.
pub type error_context_debug_message = Keyword<Std<205>>;
/// The keyword `error-context.drop`.
pub type error_context_drop = Keyword<Std<206>>;
/// The keyword `wait`.
pub type wait = Keyword<Std<207>>;
/// The keyword `definition`.
pub type definition = Keyword<Std<208>>;
/// The keyword `async`.
pub type async_ = Keyword<Std<209>>;
/// The keyword `callback`.
pub type callback = Keyword<Std<210>>;
/// The keyword `stream`.
pub type stream = Keyword<Std<211>>;
/// The keyword `future`.
pub type future = Keyword<Std<212>>;
/// The keyword `error-context`.
pub type error_context = Keyword<Std<213>>;
/// The keyword `waitable-set.new`.
pub type waitable_set_new = Keyword<Std<214>>;
/// The keyword `waitable-set.wait`.
pub type waitable_set_wait = Keyword<Std<215>>;
/// The keyword `waitable-set.poll`.
pub type waitable_set_poll = Keyword<Std<216>>;
/// The keyword `waitable-set.drop`.
pub type waitable_set_drop = Keyword<Std<217>>;
/// The keyword `waitable.join`.
pub type waitable_join = Keyword<Std<218>>;
/// The keyword `context.get`.
pub type context_get = Keyword<Std<219>>;
/// The keyword `context.set`.
pub type context_set = Keyword<Std<220>>;
/// The keyword `thread.index`.
pub type thread_index = Keyword<Std<221>>;
/// The keyword `thread.new-indirect`.
pub type thread_new_indirect = Keyword<Std<222>>;
/// The keyword `thread.resume-later`.
pub type thread_resume_later = Keyword<Std<223>>;
/// The keyword `thread.suspend`.
pub type thread_suspend = Keyword<Std<224>>;
/// The keyword `thread.yield`.
pub type thread_yield = Keyword<Std<225>>;
/// The keyword `thread.suspend-then-resume`.
pub type thread_suspend_then_resume = Keyword<Std<226>>;
/// The keyword `thread.yield-then-resume`.
pub type thread_yield_then_resume = Keyword<Std<227>>;
/// The keyword `thread.suspend-then-promote`.
pub type thread_suspend_then_promote = Keyword<Std<228>>;
/// The keyword `thread.yield-then-promote`.
pub type thread_yield_then_promote = Keyword<Std<229>>;
/// The keyword `cancellable`.
pub type cancellable = Keyword<Std<230>>;
/// The keyword `version-suffix`.
pub type version_suffix = Keyword<Std<231>>;
/// The keyword `external-id`.
pub type external_id = Keyword<Std<232>>;
