//! Maps. Go specification, "Map types", "Deletion of map elements", "For statements with range clause".
//!
//! A map is an array of its first entry, its last one, their count, the entries by the texts of their keys, and
//! the one that was found or made last, or null: `m[k] += x` makes the text of its key once. An entry is an array
//! of its key, its value, the next one, the one before, and whether it is there.
//! An entry that is gone keeps its neighbours, so that a range that stands at it finds on.

/// Functions and variables, in order.
pub const MAPS: [&'static str; 6] = [
    // An empty map.
    "
function $map(){
 return [null,null,0,Object.create(null),null];
}",
    // The text of a key, which begins with `$`: parts of structs and arrays have their lengths before.
    "
function $key($k,$d){
 var $t=\"$\";
 var $p=$t;
 var $i=0;
 if($d[0]===3){
  return $t+$k;
 }
 if($d[0]===1){
  return $t+String($k);
 }
 if($d[0]===2){
  return $k?\"$1\":\"$0\";
 }
 if($d[0]===5||$d[0]===6){
  return $t+String($k[0])+\",\"+String($k[1]);
 }
 if($d[0]===10||$d[0]===11){
  while($i<$k.length){
   $p=$key($k[$i],$d[$d[0]===10?$i+1:1]);
   $t=$t+String($p.length)+$p;
   $i=$i+1;
  }
 }
 return $t;
}",
    // The entry of a key, or null.
    "
function $mget($m,$k,$d){
 var $t=\"\";
 var $e=$m;
 if($m===null){
  return null;
 }
 $e=$m[4];
 if($e!==null&&$e[0]===$k){
  return $e;
 }
 $t=$key($k,$d);
 if(!($t in $m[3])){
  return null;
 }
 $e=$m[3][$t];
 $m[4]=$e;
 return $e;
}",
    // Sets the value of a key; a new entry is the last one.
    "
function $mset($m,$k,$v,$d){
 var $t=\"\";
 var $e=$m;
 if($m===null){
  $panic($p12);
 }
 $e=$m[4];
 if($e!==null&&$e[0]===$k){
  $e[1]=$v;
  return;
 }
 $t=$key($k,$d);
 if($t in $m[3]){
  $m[3][$t][1]=$v;
  return;
 }
 if($m[2]===67108864){
  $panic($p6);
 }
 $e=[$k,$v,null,$m[1],true];
 if($m[1]===null){
  $m[0]=$e;
 }else{
  $m[1][2]=$e;
 }
 $m[1]=$e;
 $m[2]=$m[2]+1;
 $m[3][$t]=$e;
 $m[4]=$e;
}",
    // Takes an entry away, where there is one.
    "
function $mdel($m,$k,$d){
 var $t=\"\";
 var $e=$m;
 if($m===null){
  return;
 }
 $t=$key($k,$d);
 if(!($t in $m[3])){
  return;
 }
 $e=$m[3][$t];
 delete $m[3][$t];
 $m[4]=null;
 $e[4]=false;
 $m[2]=$m[2]-1;
 if($e[3]===null){
  $m[0]=$e[2];
 }else{
  $e[3][2]=$e[2];
 }
 if($e[2]===null){
  $m[1]=$e[3];
 }else{
  $e[2][3]=$e[3];
 }
}",
    // The next turn of a range: an array of the key, the value, the entry, and the last one at the range's
    // beginning, before or at which the range ends; null after it. `$c` is null at first. An entry that was
    // added since the beginning is not met.
    "
function $mnext($m,$c){
 var $e=$m;
 var $l=$m;
 if($m===null){
  return null;
 }
 if($c===null){
  $c=[null,null,null,$m[1]];
  $e=$m[0];
 }else{
  $e=$c[2][2];
 }
 while($e!==null&&!$e[4]){
  $e=$e[2];
 }
 $l=$c[3];
 while($l!==null&&!$l[4]){
  $l=$l[3];
 }
 $c[3]=$l;
 if($e===null||$l===null||$l[2]===$e){
  return null;
 }
 $c[0]=$e[0];
 $c[1]=$e[1];
 $c[2]=$e;
 return $c;
}",
];
